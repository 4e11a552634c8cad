// The tests of one node: what it is, its children, the pages of a leaf and their number, and that it is met once.
#![tactic(auto)]

pub mod frame;
pub mod leaf;
pub mod leaves;
pub mod mark;
pub mod scope;
