// The tries of all blocks. A pass over them marks the nodes of one window in the map; passes over all windows see that no node stands
// in two places.
ghost use Rattle.std.specs.Prelude.{◌≡◌, ◌*◌, ◌≤◌, ◌<◌, length};
ghost use Rattle.layout.specs.Headers.{given_by, numbers};
ghost use Rattle.layout.specs.Tables.{Lent};
ghost use Rattle.trie_check.specs.Trie.{tested, test_trie};
ghost use Rattle.check_tries.specs.Windows.{passed, blocks_from, block_given, test_window, test_windows};

use blocks::{block_of, rows_of};
use layout::Header;
use lent::View;
use node_check::mark::Window;
use node_check::scope::Scope;
use trie_check::test::test_trie;

// How many passes reach all nodes.
const WINDOWS: usize = 8;

// `Lent` ties a header to three lent tables. A struct of header and view would be made for a check and for the room of an add, and opened
// in each of their functions; an insertion and a removal write two of the tables, and could take none. Two clauses bound the map's size: a
// struct with the map, lent with `&mut`, would be made anew for each window.

// The trie of block j.
fn test_block(
    view: View<'_>,
    map: &mut [u32],
    h: Header,
    window: Window,
    j: usize,
    left: u32,
    live: u32,
) -> Option<u32>
    requires lent { Lent (numbers h) view.nodes.now view.pages.now view.sketches.now }
    requires size_bound { window.size ≤ 32 * length map.old }
    requires j_lt_q { j < h.q }
    ensures { tested map.new result ≡ test_trie (block_given (given_by h) view.entry.nodes.now view.entry.pages.now view.entry.sketches.now window j) j map.old left live }
{
    let scope = Scope {
        nodes: view.nodes,
        pages: view.pages,
        sketches: view.sketches,
        block: block_of(h, j),
        rows: rows_of(h, j),
        window,
    };
    test_trie(&scope, map, j, left, live)
}

// The tries of all blocks: `budget` nodes together, each with `live` pages. Two budgets, of nodes and of pages: the first goes down from
// block to block, the second begins anew in each.
#[tactic(auto, unfolding(crate::specs::Windows::blocks_from))]
fn test_blocks(
    view: View<'_>,
    map: &mut [u32],
    h: Header,
    window: Window,
    budget: u32,
    live: u32,
) -> bool
    requires lent { Lent (numbers h) view.nodes.now view.pages.now view.sketches.now }
    requires size_bound { window.size ≤ 32 * length map.old }
    ensures { passed map.new result ≡ blocks_from (block_given (given_by h) view.entry.nodes.now view.entry.pages.now view.entry.sketches.now window) live h.q 0 map.old budget }
{
    let mut left = budget;
    for j in 0..h.q {
        let Some(rest) = test_block(view, map, h, window, j, left, live) else {
            return false;
        };
        left = rest;
    }
    left == 0
}

// One pass, over the nodes from `from` on. The map has a bit for each of them.
fn test_window(
    view: View<'_>,
    map: &mut [u32],
    h: Header,
    from: usize,
    left: u32,
    live: u32,
) -> bool
    requires lent { Lent (numbers h) view.nodes.now view.pages.now view.sketches.now }
    requires map_len_bound { length map.old ≤ 2048 }
    ensures { passed map.new result ≡ test_window (given_by h) view.entry.nodes.now view.entry.pages.now view.entry.sketches.now (length map.old) left live from map.old }
{
    let words = map.len();
    words::zero_run(map, 0, words);
    let window = Window {
        from,
        size: 32 * words,
    };
    test_blocks(view, map, h, window, left, live)
}

// All passes.
pub fn test_windows(view: View<'_>, map: &mut [u32], h: Header, left: u32, live: u32) -> bool
    requires lent { Lent (numbers h) view.nodes.now view.pages.now view.sketches.now }
    requires map_len_bound { length map.old ≤ 2048 }
    ensures { passed map.new result ≡ test_windows (given_by h) view.entry.nodes.now view.entry.pages.now view.entry.sketches.now (length map.old) left live map.old }
{
    let size = 32 * map.len();
    for k in 0..WINDOWS {
        let from = k * size;
        if h.nodes <= from {
            return true;
        }
        if !test_window(view, map, h, from, left, live) {
            return false;
        }
    }
    true
}
