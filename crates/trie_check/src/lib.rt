// The test of one block's trie: a walk over all its nodes and pages. It says yes exactly where the tables hold a sound trie there.
#![tactic(auto)]

pub mod test;
