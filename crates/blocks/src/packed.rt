// The packed bytes of a page.
ghost use Rattle.std.specs.Prelude.{◌≡◌, ◌+◌, ◌*◌, ◌<◌, ◌≤◌, length, take};
ghost use Rattle.meaning.specs.Forest.{block_bytes, bytes_of_sketch};
ghost use Rattle.layout.specs.Headers.{given_by, numbers};
ghost use Rattle.layout.specs.Lengths.{sketches_length};
ghost use Rattle.layout.specs.Tables.{Fits};
ghost use Rattle.blocks.specs.Tables.{SketchTable};
ghost use Rattle.blocks.specs.Packed.{row_byte, page_byte, level_at};
ghost use Rattle.blocks.specs.RowBytes.{row_bytes};

use crate::{Level, Rows, block_of, rows_of};
use layout::{Block, Header};

// The packed byte of `count` symbols of the sketch table from `at` on, each taken modulo 2^b, so that any table gives a byte.
// Beside `sketch::packing::pack_byte`: with the mask in there too, packing a sketch takes 5 to 12 in 100 more instructions.
#[tactic(auto, unfolding(crate::specs::Packed::row_byte))]
pub fn row_byte(b: u32, sketches: &[u8], at: usize, count: usize) -> u8
    requires b_bound { b ≤ 8 }
    requires count_bound { b * count ≤ 8 }
    requires count_in_bounds { at + count ≤ length sketches.now }
    ensures { result ≡ row_byte b sketches.now at count }
{
    let mask = (1u32 << b) - 1;
    let mut v: u32 = 0;
    for i in (0..count).rev() {
        v = (v << b) + (sketches[at + i] as u32 & mask);
    }
    v as u8
}

impl Level {
    // The byte of a page at this level.
    #[tactic(auto, unfolding(crate::specs::Packed::page_byte))]
    pub fn page_byte(self, sketches: &[u8], block: Block, p: usize) -> u8
        requires sketch_table { SketchTable block.pages self sketches.now }
        requires p_lt_pages { p < block.pages }
        ensures { result ≡ page_byte sketches.now self p }
    {
        let at = p * self.symbols + self.from;
        row_byte(self.bits, sketches, at, self.count)
    }
}

impl Rows {
    // Level k of the block: what is left of its symbols, at most a byte's.
    #[tactic(auto, unfolding(crate::specs::Packed::level_at))]
    pub fn level_at(self, k: usize) -> Level
        requires k_bound { k < 64 }
        requires per_bound { self.per ≤ 8 }
        requires length_bound { self.start + self.length ≤ self.symbols }
        ensures { result ≡ level_at self k }
    {
        let done = usize::min(k * self.per, self.length);
        Level {
            bits: self.bits,
            symbols: self.symbols,
            from: self.start + done,
            count: usize::min(self.per, self.length - done),
        }
    }
}

// Writes the packed bytes of block j of a page's row, at the beginning of an array of fixed length, since a call allocates nothing.
// Symbols are taken modulo 2^b, so that every table has such bytes.
#[tactic(auto, unfolding(meaning::specs::Forest::block_bytes, crate::specs::RowBytes::row_bytes))]
pub fn row_bytes(bytes: &mut [u8; 64], h: Header, sketches: &[u8], p: usize, j: usize)
    requires h_in_bounds { sketches_length (given_by h) ≤ length sketches.now }
    requires p_lt_pages { p < h.pages }
    requires j_lt_q { j < h.q }
    ensures bytes_after { take (block_bytes (given_by h) j) bytes.new ≡ row_bytes (given_by h) j sketches.now p }
    ensures long { length bytes.new ≡ 64 }
{
    let block = block_of(h, j);
    let rows = rows_of(h, j);
    for k in 0..rows.bytes {
        bytes[k] = rows.level_at(k).page_byte(sketches, block, p);
    }
}

// The packed bytes of block j of a sketch, at the beginning of an array of fixed length; how many, `Rows` says. That the sketch fits the
// header is a clause, here, where pages are added and where a query is made ready: a sketch is a part of what a caller lends, and a type
// for it would be made anew by each.
#[tactic(auto, unfolding(meaning::specs::Forest::block_bytes, meaning::specs::Forest::bytes_of_sketch))]
pub fn block_bytes(h: Header, sketch: &[u8], j: usize) -> [u8; 64]
    requires fits { Fits (numbers h) sketch.now }
    requires j_lt_q { j < h.q }
    ensures { take (block_bytes (given_by h) j) result ≡ bytes_of_sketch (given_by h) j sketch.now }
{
    let mut bytes = [0u8; 64];
    sketch::blocks::pack_block(h.b as u32, h.m, h.q, j, sketch, &mut bytes);
    bytes
}
