// How the children of a node stand in the node table: in eight chains by 32 bytes, the bytes of a chain rising, each child linked to the next.
#![tactic(auto)]

pub mod cursor;
pub mod links;
pub mod order;
pub mod place;
