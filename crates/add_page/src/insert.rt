// The page put into the trie of each block. Its row is in the sketch table by now: a split reads the rows of all pages of the leaf.
// That the tables are long enough for the header (`Lent`) is a clause: header and tables are lent side by side by each caller.
// The two tables stay two parameters, as in trie_insert.
ghost use Rattle.std.specs.Prelude.{◌≡◌, ◌<◌};
ghost use Rattle.layout.specs.Headers.{numbers};
ghost use Rattle.layout.specs.Header.{with_thresholds};
ghost use Rattle.layout.specs.Tables.{Lent, Fits};
ghost use Rattle.trie_insert.specs.Pages.{after};
ghost use Rattle.add_laws.specs.Insert.{filled, insert_block, insert_all};

use blocks::packed::block_bytes;
use blocks::{block_of, rows_of};
use layout::Header;
use layout::settings::LEVELS;
use trie::Stop;
use trie::growth::Growth;
use trie::leaf::Grown;
use trie_insert::insert::insert_page;

fn insert_block(
    nodes: &mut [u32],
    pages: &mut [u32],
    sketches: &[u8],
    thresholds: &[u32; LEVELS],
    h: Header,
    sketch: &[u8],
    p: usize,
    j: usize,
    free: u32,
) -> Result<Grown, Stop>
    requires lent { Lent (numbers h) nodes.old pages.old sketches.now }
    requires fits { Fits (numbers h) sketch.now }
    requires p_lt_pages { p < h.pages }
    requires j_lt_q { j < h.q }
    ensures { after nodes.new pages.new result ≡ insert_block (with_thresholds (numbers h) thresholds.now) sketches.now sketch.now p j nodes.old pages.old free }
{
    // An array and not a Vec, since there is no heap; what is called gets the block's part of it.
    let bytes = block_bytes(h, sketch, j);
    let growth = Growth {
        sketches,
        thresholds,
        block: block_of(h, j),
        rows: rows_of(h, j),
    };
    let n = growth.rows.bytes;
    insert_page(nodes, pages, &growth, &bytes[..n], j, p, free)
}

// The free link then, or none where it stopped on unsound tables.
pub fn insert_all(
    nodes: &mut [u32],
    pages: &mut [u32],
    sketches: &[u8],
    thresholds: &[u32; LEVELS],
    h: Header,
    sketch: &[u8],
    p: usize,
    free: u32,
) -> Option<u32>
    requires lent { Lent (numbers h) nodes.old pages.old sketches.now }
    requires fits { Fits (numbers h) sketch.now }
    requires p_lt_pages { p < h.pages }
    ensures { filled nodes.new pages.new result ≡ insert_all (with_thresholds (numbers h) thresholds.now) sketches.now sketch.now p nodes.old pages.old free }
{
    let mut link = free;
    for j in 0..h.q {
        let grown = insert_block(nodes, pages, sketches, thresholds, h, sketch, p, j, link).ok()?;
        link = grown.free;
    }
    Some(link)
}
