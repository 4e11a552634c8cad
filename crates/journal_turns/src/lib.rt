// The turns of the program over a journal: what stands at an offset is read, carried out, and told in a line.
#![tactic(auto)]

pub mod turn;
