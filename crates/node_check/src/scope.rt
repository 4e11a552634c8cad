// What the test of one block's trie goes by.
ghost use Rattle.node_check.specs.Given.{given, Readable};

use crate::mark::Window;
use blocks::Rows;
use layout::Block;

// The tables, the block, its rows, and the nodes that a map has bits for. No method gives its `Leaves`: the two literals are shorter than its
// contract.
#[derive(Clone, Copy, Drop)]
pub struct Scope<'a> {
    pub nodes: &'a [u32],
    pub pages: &'a [u32],
    pub sketches: &'a [u8],
    pub block: Block,
    pub rows: Rows,
    pub window: Window,
    pub ghost readable: { Readable (given nodes.now pages.now sketches.now block rows window) },
}
