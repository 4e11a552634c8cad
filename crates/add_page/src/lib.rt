// Add: a page's row, its leaf in each block's trie, its page word and its signature.
#![tactic(auto)]

pub mod add;
mod insert;
