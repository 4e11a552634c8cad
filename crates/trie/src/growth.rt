// What a block's trie grows by.
ghost use Rattle.std.specs.Prelude.{◌≤◌, length};
ghost use Rattle.blocks.specs.Tables.{RowTable};

use blocks::Rows;
use layout::Block;

// The sketch table, by which a leaf is split, the thresholds of the levels, the block, and where its symbols stand in a row.
// Each of its two makers writes it out: a function that makes it of a header would have both their clauses.
#[derive(Clone, Copy, Drop)]
pub struct Growth<'a> {
    pub sketches: &'a [u8],
    pub thresholds: &'a [u32],
    pub block: Block,
    pub rows: Rows,
    pub ghost row_table: { RowTable block.pages rows sketches.now },
    pub ghost bytes_in_bounds: { rows.bytes ≤ length thresholds.now },
}
