// Show: the row of a page, for a reader to whom the register opens its class.
#![tactic(auto)]

pub mod show;
