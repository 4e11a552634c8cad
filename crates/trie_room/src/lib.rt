// How many nodes an add needs in one block: a part of question 12, decided before anything is written.
#![tactic(auto)]

pub mod needed;
