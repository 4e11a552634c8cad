// The tries of all blocks walked for a query, and the pages of the leaves met that the walks give.
#![tactic(auto)]

pub mod all_blocks;
mod bytes;
pub mod quest;
