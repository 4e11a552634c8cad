// What a drop does before the page itself is struck out: the questions 5, 6, 8 and 9, and the removal from the trie of every block.
#![tactic(auto)]

pub mod questions;
pub mod removal;
