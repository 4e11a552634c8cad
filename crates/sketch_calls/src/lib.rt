// The calls on sketches alone, and their forms for C.
#![tactic(auto)]

pub mod calls;
