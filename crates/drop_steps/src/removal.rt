// The page taken out of the trie of each block.
// That the tables are long enough for the header (`Lent`) is a clause: header and tables are lent side by side by each caller.
// The two tables stay two parameters, as in trie_insert.
ghost use Rattle.std.specs.Prelude.{◌≡◌, ◌<◌};
ghost use Rattle.layout.specs.Headers.{given_by, numbers};
ghost use Rattle.layout.specs.Tables.{Lent};
ghost use Rattle.trie_remove.specs.Remove.{gone};
ghost use Rattle.drop_laws.specs.Removal.{remove_block, remove_all};

use blocks::packed::row_bytes;
use blocks::{block_of, rows_of};
use layout::Header;
use trie::path::Passed;

// Of one block; the array is for the path to the page's leaf.
fn remove_block(
    nodes: &mut [u32],
    pages: &mut [u32],
    path: &mut [Passed; 64],
    sketches: &[u8],
    h: Header,
    p: usize,
    j: usize,
    free: u32,
) -> Option<u32>
    requires lent { Lent (numbers h) nodes.old pages.old sketches.now }
    requires p_lt_pages { p < h.pages }
    requires j_lt_q { j < h.q }
    ensures { gone nodes.new pages.new result ≡ remove_block (given_by h) sketches.now p j nodes.old pages.old free }
{
    // An array and not a Vec, since there is no heap; what is called gets the block's part of it.
    let mut bytes = [0u8; 64];
    row_bytes(&mut bytes, h, sketches, p, j);
    let block = block_of(h, j);
    let rows = rows_of(h, j);
    let n = rows.bytes;
    trie_remove::remove_page(nodes, pages, path, block, j, &bytes[..n], p, free)
}

// The free link then, or none where it stopped on unsound tables.
pub fn remove_all(
    nodes: &mut [u32],
    pages: &mut [u32],
    sketches: &[u8],
    h: Header,
    p: usize,
    free: u32,
) -> Option<u32>
    requires lent { Lent (numbers h) nodes.old pages.old sketches.now }
    requires p_lt_pages { p < h.pages }
    ensures { gone nodes.new pages.new result ≡ remove_all (given_by h) sketches.now p nodes.old pages.old free }
{
    // Fixed memory inside a call: a trie has at most 64 levels.
    let mut path = [Passed { node: 0, slot: 0 }; 64];
    let mut link = free;
    // Not one function with an add's loop over its tries: the closure's contract would be longer than both loops.
    for j in 0..h.q {
        link = remove_block(nodes, pages, &mut path, sketches, h, p, j, link)?;
    }
    Some(link)
}
