// What a journal's command comes to: the line that it writes, and m behind it.
#![tactic(auto)]

pub mod lines;
