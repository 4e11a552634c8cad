// What the test of a leaf reads.
ghost use Rattle.std.specs.Prelude.{◌≤◌};
ghost use Rattle.layout.specs.Tables.{PageTable};
ghost use Rattle.blocks.specs.Tables.{RowTable};

use blocks::Rows;
use layout::Block;

// The pages of one block: the page table, which has their links, and their rows in the sketch table.
#[derive(Clone, Copy, Drop)]
pub struct Leaves<'a> {
    pub pages: &'a [u32],
    pub sketches: &'a [u8],
    pub block: Block,
    pub rows: Rows,
    pub ghost page_table: { PageTable block.pages block.base pages.now },
    pub ghost pages_le_base: { block.pages ≤ block.base },
    pub ghost row_table: { RowTable block.pages rows sketches.now },
}
