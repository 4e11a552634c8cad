// The steps of a search's walk over one block's trie: where it stands, and where one step leads.
#![tactic(auto)]

pub mod frame;
pub mod place;
pub mod turn;
pub mod walk;
