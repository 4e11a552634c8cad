// All tables of an index and the two lists of its searches, as the program has them.
use lent::{Index, Lists};

#[derive(Drop)]
pub struct Desk<'a> {
    pub index: Index<'a>,
    pub sketches: &'a mut [u8],
    pub working: &'a mut [u32],
    pub lists: Lists<'a>,
}
