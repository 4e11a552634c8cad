// The tests of the tables apart from the tries: of the live pages, and of the free chain.
#![tactic(auto)]

pub mod free;
pub mod pages;
