// How many nodes an add needs in one block.
ghost use Rattle.std.specs.Prelude.{◌≡◌, ◌<◌, ◌≤◌, length};
ghost use Rattle.layout.specs.Tables.{NodeTable, PageTable};
ghost use Rattle.trie.specs.Descend.{Inside};
ghost use Rattle.trie_room.specs.Needs.{leaf_needs, gap_needs, needed_at, nodes_needed};

use layout::nodes::{first_page, page_count};
use leaf_bytes::distinct_bytes;
use trie::growth::Growth;
use trie::path::{Reach, descend_to};

// A leaf at level k with so many pages, the first at a link, that takes a page with this byte there: it splits where they are as many as
// the threshold already.
fn leaf_needs(
    pages: &[u32],
    growth: &Growth<'_>,
    k: usize,
    count: u32,
    first: u32,
    byte: u8,
) -> Option<usize>
    requires page_table { PageTable growth.now.block.pages growth.now.block.base pages.now }
    requires k_lt_bytes { k < growth.now.rows.bytes }
    ensures { result ≡ leaf_needs pages.now growth.now.sketches.now growth.now.thresholds.now growth.now.block.pages growth.now.block.base growth.now.rows k count first byte }
{
    if growth.thresholds[k] > count {
        return Some(0);
    }
    let level = growth.rows.level_at(k);
    distinct_bytes(pages, growth.sketches, growth.block, level, first, byte)
}

// A new leaf at level k, where so many levels have a byte: it splits at once where the threshold is 0.
#[tactic(auto, unfolding(crate::specs::Needs::gap_needs))]
fn gap_needs(thresholds: &[u32], bytes: usize, k: usize) -> usize
    requires { bytes ≤ length thresholds.now }
    ensures { result ≡ gap_needs thresholds.now bytes k }
{
    if k >= bytes {
        return 1;
    }
    if thresholds[k] == 0 {
        return 2;
    }
    1
}

// An add of a page whose bytes lead there.
pub fn needed_at(
    nodes: &[u32],
    pages: &[u32],
    growth: &Growth<'_>,
    bytes: &[u8],
    reach: Option<Reach>,
) -> Option<usize>
    requires node_table { NodeTable growth.now.block.nodes nodes.now }
    requires page_table { PageTable growth.now.block.pages growth.now.block.base pages.now }
    requires bytes_len { length bytes.now ≡ growth.now.rows.bytes }
    requires inside { Inside growth.now.block.nodes growth.now.rows.bytes reach }
    ensures { result ≡ needed_at pages.now growth.now.sketches.now growth.now.thresholds.now growth.now.block.pages growth.now.block.base growth.now.rows bytes.now nodes.now growth.now.block.nodes reach }
{
    match reach? {
        Reach::Leaf(at) => {
            if at.level >= bytes.len() {
                return Some(0);
            }
            let count = page_count(nodes, growth.block.nodes, at.node);
            let first = first_page(nodes, growth.block.nodes, at.node);
            let byte = bytes[at.level];
            leaf_needs(pages, growth, at.level, count, first, byte)
        }
        Reach::Gap(at) => Some(gap_needs(growth.thresholds, bytes.len(), at.level + 1)),
    }
}

// An add of a page with these bytes to the trie with this root.
pub fn nodes_needed(
    nodes: &[u32],
    pages: &[u32],
    growth: &Growth<'_>,
    bytes: &[u8],
    root: usize,
) -> Option<usize>
    requires node_table { NodeTable growth.now.block.nodes nodes.now }
    requires page_table { PageTable growth.now.block.pages growth.now.block.base pages.now }
    requires bytes_len { length bytes.now ≡ growth.now.rows.bytes }
    requires root_lt_nodes { root < growth.now.block.nodes }
    ensures { result ≡ nodes_needed pages.now growth.now.sketches.now growth.now.thresholds.now growth.now.block.pages growth.now.block.base growth.now.rows bytes.now nodes.now growth.now.block.nodes root }
{
    let reach = descend_to(nodes, growth.block.nodes, root, bytes);
    needed_at(nodes, pages, growth, bytes, reach)
}
