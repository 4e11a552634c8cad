// Sketches: the limits of an index, symbols and their distance, packing, blocks.
#![tactic(auto)]

pub mod blocks;
pub mod limits;
pub mod packing;
pub mod symbols;
