// The tables of an opening: how long each must be, and the fresh node table.
#![tactic(auto)]

pub mod fresh;
pub mod lengths;
