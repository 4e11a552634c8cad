// Search: the pages open to a reader whose sketches are within a radius of a query.
#![tactic(auto)]

mod questions;
pub mod search;
