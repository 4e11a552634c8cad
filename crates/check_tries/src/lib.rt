// The test of the tries of all blocks, in a pass for each window of nodes.
#![tactic(auto)]

pub mod windows;
