// Drop: a page leaves its leaf in each block's trie, and is live no more.
#![tactic(auto)]

pub mod drop;
