// The commands of a journal, carried out on lent tables.
#![tactic(auto)]

pub mod commands;
pub mod desk;
