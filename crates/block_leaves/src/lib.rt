// The leaves that a query's own bytes lead to, one in the trie of each block. The descents of all blocks go on together.
#![tactic(auto)]

ghost use Rattle.std.specs.Prelude.{◌≡◌, true, ◌*◌, ◌<◌, ◌≤◌, length};
ghost use Rattle.meaning.specs.Sketch.{in_range};
ghost use Rattle.layout.specs.Headers.{numbers};
ghost use Rattle.layout.specs.Nodes.{node_words};
ghost use Rattle.block_leaves.specs.Leaves.{Packed, Started, Leaves};

use descent::Cursor;
use layout::Header;

// For each block the link of the first page of its leaf, and what is left of the nodes that may be read: none where they were spent.
// At most eight blocks: a fixed array, of which q places are taken.
#[derive(Clone, Copy, Debug, PartialEq, Eq)]
pub struct Ends {
    pub firsts: [u32; 8],
    pub left: Option<u32>,
}

// Packs each block of a sketch, block j from byte 64 × j on. One array of fixed length, 64 bytes for each of at most eight blocks: a search
// takes no heap.
fn pack_blocks(h: Header, sketch: &[u8], out: &mut [u8; 512])
    requires sketch_len { length sketch.now ≡ h.m }
    requires sketch_value { in_range h.b sketch.now ≡ true }
    ensures { Packed (numbers h) sketch.now out.new }
{
    let b = h.b as u32;
    for j in 0..h.q {
        let start = 64 * j;
        sketch::blocks::pack_block(b, h.m, h.q, j, sketch, &mut out[start..]);
    }
}

// The descent of each block, at its root: node j for block j.
fn start_all(nodes: &[u32], h: Header, bytes: &[u8; 512]) -> [Cursor; 16]
    requires nodes_in_bounds { node_words h.nodes ≤ length nodes.now }
    ensures { Started (numbers h) nodes.now bytes.now result }
{
    let b = h.b as u32;
    let mut cursors = [descent::ended(0); 16];
    for j in 0..h.q {
        let n = sketch::limits::packed_length(b, sketch::blocks::block_length(h.m, h.q, j));
        let first = 64 * j;
        let last = first + n - 1;
        cursors[j] = descent::arrive(nodes, h.nodes, bytes, j, first as u32, last as u32);
    }
    cursors
}

// The leaves by their first pages: 0 where there is none, and a link past every page where one is not in order.
pub fn leaves(nodes: &[u32], h: Header, sketch: &[u8], budget: u32) -> Ends
    requires nodes_in_bounds { node_words h.nodes ≤ length nodes.now }
    requires sketch_len { length sketch.now ≡ h.m }
    requires sketch_value { in_range h.b sketch.now ≡ true }
    requires budget_lt_nodes { budget < h.nodes }
    ensures { Leaves (numbers h) nodes.now sketch.now budget result }
{
    let mut bytes = [0u8; 512];
    pack_blocks(h, sketch, &mut bytes);
    let started = start_all(nodes, h, &bytes);
    let found = descent::descend(nodes, h.nodes, &bytes, started, h.q, budget);
    Ends {
        firsts: descent::leaves_of(found.cursors, h.q),
        left: found.left,
    }
}
