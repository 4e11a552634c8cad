// Insertion into one block's trie.
// The two tables stay two parameters: a struct of two `&mut` would want a clause in each contract, and a part of the loop's invariant,
// that the same two are lent.
#![tactic(auto)]

pub mod insert;
pub mod pages;
pub mod split;
