// The packed bytes of one block of the query.
ghost use Rattle.std.specs.Prelude.{◌<◌};
ghost use Rattle.layout.specs.Headers.{numbers};
ghost use Rattle.layout.specs.Tables.{Fits};
ghost use Rattle.traversal.specs.Bytes.{BlockBytes};

use layout::Header;

// The bytes are the first n of the array: fixed memory inside a call, since a search takes no heap.
#[derive(Clone, Copy, Debug, PartialEq, Eq)]
pub struct Packed {
    pub bytes: [u8; 64],
    pub n: usize,
}

// Packs block j of the query.
pub fn pack(h: Header, query: &[u8], j: usize) -> Packed
    requires fits { Fits (numbers h) query.now }
    requires j_lt_q { j < h.q }
    ensures { BlockBytes (numbers h) query.now j result }
{
    let bytes = blocks::packed::block_bytes(h, query, j);
    let n = sketch::limits::packed_length(h.b as u32, sketch::blocks::block_length(h.m, h.q, j));
    Packed { bytes, n }
}
