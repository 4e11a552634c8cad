// The commands of a journal, read out of its bytes, and the reader.
#![tactic(auto)]

pub mod commands;
pub mod reading;
