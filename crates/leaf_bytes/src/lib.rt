// How many different bytes the pages of a leaf have at one level, with a new page's: so many nodes its split needs.
#![tactic(auto)]

ghost use Rattle.std.specs.Prelude.{◌≡◌, ◌<◌};
ghost use Rattle.layout.specs.Tables.{PageTable};
ghost use Rattle.blocks.specs.Tables.{SketchTable};
ghost use Rattle.leaf_bytes.specs.Bytes.{distinct_bytes};

use blocks::Level;
use layout::Block;

// How many different bytes a new page's byte and those of the pages of a chain are at one level: so many children a leaf with
// these pages gets. A chain that is longer than the capacity is broken.
#[tactic(auto, unfolding(crate::specs::Bytes::distinct_bytes))]
pub fn distinct_bytes(
    pages: &[u32],
    sketches: &[u8],
    block: Block,
    level: Level,
    first: u32,
    byte: u8,
) -> Option<usize>
    requires page_table { PageTable block.pages block.base pages.now }
    requires sketch_table { SketchTable block.pages level sketches.now }
    ensures { result ≡ distinct_bytes pages.now sketches.now block.pages block.base level first byte }
{
    // A flag for each byte: there is no heap for a set.
    let mut seen = [false; 256];
    seen[byte as usize] = true;
    let mut n: usize = 1;
    let mut link = first as usize;
    for _ in 0..block.pages {
        if link == 0 {
            return Some(n);
        }
        if block.pages < link {
            return None;
        }
        let p = link - 1;
        let v = level.page_byte(sketches, block, p) as usize;
        n += (!seen[v]) as usize;
        seen[v] = true;
        link = pages[block.base + p] as usize;
    }
    if link == 0 { Some(n) } else { None }
}
