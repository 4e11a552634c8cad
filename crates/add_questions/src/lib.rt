// The questions of an add, before anything is written: 5 to 11 and 15 on the tables, the page and its sketch, 12 on room for the new nodes.
#![tactic(auto)]

pub mod questions;
pub mod room;
