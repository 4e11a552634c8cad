// What belongs to one block of a page: where its trie lies, where its symbols stand in a row, and its packed bytes.
#![tactic(auto)]

ghost use Rattle.std.specs.Prelude.{◌≡◌, ◌<◌};
ghost use Rattle.layout.specs.Headers.{given_by};
ghost use Rattle.blocks.specs.RowBytes.{rows_of, block_of};

pub mod packed;

use layout::{Block, Header};
use sketch::blocks::{block_length, block_start};
use sketch::limits::{packed_length, per_byte};

// A clause ties each to the lent sketch table (`SketchTable`, `RowTable`): the table is a slice, and no part of the value.
// That j is one of the q blocks is a clause: j counts a loop over them, and a type for it would be made anew at each turn. So is that p
// is one of its pages.

// Where the symbols of one block stand in a page's row of `symbols` symbols: `length` of them from place `start`, of `bits` bits each.
// They are packed into `bytes` bytes, `per` to a byte.
#[derive(Clone, Copy)]
pub struct Rows {
    pub bits: u32,
    pub symbols: usize,
    pub start: usize,
    pub length: usize,
    pub per: usize,
    pub bytes: usize,
}

// The packed byte of a page at one level: `count` symbols from place `from` of its row of `symbols` symbols, of `bits` bits each.
#[derive(Clone, Copy)]
pub struct Level {
    pub bits: u32,
    pub symbols: usize,
    pub from: usize,
    pub count: usize,
}

// Where the symbols of block j stand in the rows of the sketch table.
#[tactic(auto, unfolding(crate::specs::RowBytes::rows_of, meaning::specs::Forest::block_bytes))]
pub fn rows_of(h: Header, j: usize) -> Rows
    requires j_lt_q { j < h.q }
    ensures { result ≡ rows_of (given_by h) j }
{
    let bits = h.b as u32;
    let length = block_length(h.m, h.q, j);
    Rows {
        bits,
        symbols: h.m,
        start: block_start(h.m, h.q, j),
        length,
        per: per_byte(bits),
        bytes: packed_length(bits, length),
    }
}

// The trie of block j.
pub fn block_of(h: Header, j: usize) -> Block
    requires j_lt_q { j < h.q }
    ensures { result ≡ block_of (given_by h) j }
{
    Block {
        nodes: h.nodes,
        pages: h.pages,
        base: layout::pages::next_at(h.pages, j),
    }
}
