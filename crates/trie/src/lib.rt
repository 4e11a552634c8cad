// One block's trie in the node table and the page table: where things stand in it.
#![tactic(auto)]

pub mod growth;
pub mod leaf;
pub mod path;
pub mod span;

// Why a trie can't grow: no node is free, or a link or a state is broken.
#[derive(Clone, Copy, Debug, PartialEq, Eq)]
pub enum Stop {
    Full,
    Broken,
}
