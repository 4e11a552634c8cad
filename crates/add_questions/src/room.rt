// Question 12, before anything is written: are the nodes that the add needs free?
// That the tables are long enough for the header (`Lent`) is a clause: header and tables are lent side by side by each caller.
// Thresholds go beside a header: an opening is lent them as numbers of 16 bits, every other call reads them where they stand in the table.
ghost use Rattle.std.specs.Prelude.{◌≡◌, ◌<◌};
ghost use Rattle.layout.specs.Headers.{numbers};
ghost use Rattle.layout.specs.Header.{with_thresholds};
ghost use Rattle.layout.specs.Tables.{Lent, Fits};
ghost use Rattle.add_laws.specs.Room.{block_needs, all_needed, room_of};

use blocks::packed::block_bytes;
use blocks::{block_of, rows_of};
use layout::Header;
use layout::settings::LEVELS;
use lent::View;
use trie::Stop;
use trie::growth::Growth;
use trie::span::enough_free;
use trie_room::needed::nodes_needed;

// How many nodes the trie of block j needs.
fn block_needs(
    view: View<'_>,
    thresholds: &[u32; LEVELS],
    h: Header,
    sketch: &[u8],
    j: usize,
) -> Option<usize>
    requires lent { Lent (numbers h) view.nodes.now view.pages.now view.sketches.now }
    requires fits { Fits (numbers h) sketch.now }
    requires j_lt_q { j < h.q }
    ensures { result ≡ block_needs (with_thresholds (numbers h) thresholds.now) view.entry.nodes.now view.entry.pages.now view.entry.sketches.now sketch.now j }
{
    // An array and not a Vec, since there is no heap; what is called gets the block's part of it.
    let bytes = block_bytes(h, sketch, j);
    let growth = Growth {
        sketches: view.sketches,
        thresholds,
        block: block_of(h, j),
        rows: rows_of(h, j),
    };
    let n = growth.rows.bytes;
    nodes_needed(view.nodes, view.pages, &growth, &bytes[..n], j)
}

// The tries of all blocks together.
fn all_needed(view: View<'_>, thresholds: &[u32; LEVELS], h: Header, sketch: &[u8]) -> Option<usize>
    requires lent { Lent (numbers h) view.nodes.now view.pages.now view.sketches.now }
    requires fits { Fits (numbers h) sketch.now }
    ensures { result ≡ all_needed (with_thresholds (numbers h) thresholds.now) view.entry.nodes.now view.entry.pages.now view.entry.sketches.now sketch.now }
{
    let mut sum: usize = 0;
    for j in 0..h.q {
        let n = block_needs(view, thresholds, h, sketch, j)?;
        sum += n;
    }
    Some(sum)
}

// Are so many free, from the free link on?
#[tactic(auto, unfolding(layout::specs::Lengths::nodes_length))]
pub fn room(
    view: View<'_>,
    thresholds: &[u32; LEVELS],
    h: Header,
    sketch: &[u8],
    free: u32,
) -> Result<(), Stop>
    requires lent { Lent (numbers h) view.nodes.now view.pages.now view.sketches.now }
    requires fits { Fits (numbers h) sketch.now }
    ensures { result ≡ room_of (with_thresholds (numbers h) thresholds.now) view.entry.nodes.now view.entry.pages.now view.entry.sketches.now sketch.now free }
{
    let needed = all_needed(view, thresholds, h, sketch).ok_or(Stop::Broken)?;
    enough_free(view.nodes, h.nodes, free, needed)
}
