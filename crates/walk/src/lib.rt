// A search's walk over one block's trie: it gives the leaves whose path is within a radius of the query's bytes, up to 16 at a time,
// each by the link to its first page.
#![tactic(auto)]

pub mod batch;
