// What a node is, and the test of a leaf: each of its pages is live, and has the bytes that led to the leaf, and they are as many as it says.
ghost use Rattle.std.specs.Prelude.{◌≡◌, ◌≤◌, ◌<◌};
ghost use Rattle.layout.specs.Tables.{NodeTable};
ghost use Rattle.node_check.specs.Leaf.{kind_of, on_path, test_pages, test_leaf};

use crate::leaves::Leaves;
use children::order::is_bare;

// What a node of a trie is. Beside that of layout, which has the free node too.
#[derive(Clone, Copy, Debug, PartialEq, Eq)]
pub enum Kind {
    Inner,
    // by the link to its first page
    Leaf(u32),
}

// What node x is; none of a free one, and of a leaf that has children.
#[tactic(auto, unfolding(crate::specs::Leaf::kind_of))]
pub fn kind_of(nodes: &[u32], cap: usize, x: usize) -> Option<Kind>
    requires node_table { NodeTable cap nodes.now }
    requires x_lt_cap { x < cap }
    ensures { result ≡ kind_of nodes.now cap x }
{
    match layout::nodes::kind_of(nodes, cap, x) {
        layout::nodes::Kind::Free => None,
        layout::nodes::Kind::Inner => Some(Kind::Inner),
        layout::nodes::Kind::Leaf(first) => {
            if !is_bare(nodes, cap, x) {
                return None;
            }
            Some(Kind::Leaf(first))
        }
    }
}

// Are the first `depth` bytes of page p those of the path? An array with a depth, which stays a clause: a path grows in the fixed memory of
// one walk, and a level of the walk writes one byte of it.
#[tactic(auto, unfolding(crate::specs::Leaf::on_path, meaning::specs::Lists::upto))]
fn is_on_path(leaves: &Leaves<'_>, path: &[u8; 64], depth: usize, p: usize) -> bool
    requires p_lt_pages { p < leaves.now.block.pages }
    requires depth_bound { depth ≤ 64 }
    ensures { result ≡ on_path leaves.now.sketches.now leaves.now.rows path.now depth p }
{
    for k in 0..depth {
        let level = leaves.rows.level_at(k);
        if level.page_byte(leaves.sketches, leaves.block, p) != path[k] {
            return false;
        }
    }
    true
}

// Tests the pages of a leaf, from a link on, of which there are at most `budget`. What is left of it; none where the test fails.
// No `for`: tried downward over `0..=budget`, and the proof that its turns begin with the whole budget did not close.
fn test_pages(
    leaves: &Leaves<'_>,
    path: &[u8; 64],
    depth: usize,
    first: u32,
    budget: u32,
) -> Option<u32>
    requires depth_bound { depth ≤ 64 }
    ensures { result ≡ test_pages leaves.now.pages.now leaves.now.sketches.now leaves.now.block.pages leaves.now.block.base leaves.now.rows path.now depth first budget }
{
    let pages = leaves.pages;
    let block = leaves.block;
    let mut link = first;
    let mut left = budget;
    loop {
        if link == 0 {
            return Some(left);
        }
        if left == 0 {
            return None;
        }
        let p = (link as usize) - 1;
        if p >= block.pages {
            return None;
        }
        if !layout::pages::is_live(pages, p) {
            return None;
        }
        if !is_on_path(leaves, path, depth, p) {
            return None;
        }
        link = pages[block.base + p];
        left -= 1;
    }
}

// Tests a leaf: its pages, from a link on, of which there are at most `budget`, and that they are as many as the number that stands in it.
// What is left of the budget; none where the test fails.
#[tactic(auto, unfolding(crate::specs::Leaf::test_leaf))]
pub fn test_leaf(
    leaves: &Leaves<'_>,
    path: &[u8; 64],
    depth: usize,
    first: u32,
    count: u32,
    budget: u32,
) -> Option<u32>
    requires depth_bound { depth ≤ 64 }
    ensures { result ≡ test_leaf leaves.now.pages.now leaves.now.sketches.now leaves.now.block.pages leaves.now.block.base leaves.now.rows path.now depth first count budget }
{
    let n = test_pages(leaves, path, depth, first, budget)?;
    if (n as usize) + (count as usize) != budget as usize {
        return None;
    }
    Some(n)
}
