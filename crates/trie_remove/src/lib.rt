// A page taken out of one block's trie.
// The two tables stay two parameters, as in trie_insert.
#![tactic(auto)]

ghost use Rattle.std.specs.Prelude.{◌≡◌, ◌≤◌, ◌<◌, length};
ghost use Rattle.layout.specs.Pages.{most_pages};
ghost use Rattle.layout.specs.Nodes.{node_words};
ghost use Rattle.layout.specs.Tables.{NodeTable, PageTable};
ghost use Rattle.trie.specs.Descend.{noted};
ghost use Rattle.trie_remove.specs.Take.{take_from, take_page, took, link_in};
ghost use Rattle.trie_remove.specs.Prune.{freed, prune_up, InTable};
ghost use Rattle.trie_remove.specs.Remove.{shorten_leaf, remove_at, remove_page, gone};

use children::order::is_bare;
use layout::Block;
use layout::nodes::{State, first_page, set_state, shorten};
use trie::leaf::free_child;
use trie::path::{Passed, Reach, Reached, trace_to};

// Why a page was not taken out of a chain: it does not stand in it, or a link is broken.
#[derive(Clone, Copy, Debug, PartialEq, Eq)]
pub enum Lost {
    Missing,
    Broken,
}

// Page p out of a chain of which it is not the first. No `Block`: a chain of pages has nothing of the node table, here and in `take_page`.
#[tactic(auto, unfolding(crate::specs::Take::take_from))]
fn take_behind(
    pages: &mut [u32],
    pcap: usize,
    base: usize,
    first: u32,
    p: usize,
) -> Result<u32, Lost>
    requires page_table { PageTable pcap base pages.old }
    requires p_lt_pcap { p < pcap }
    requires first_le_most_pages { first ≤ most_pages }
    ensures result_after { took pages.new result ≡ take_from pages.old pcap base p first first pcap }
    ensures inside { link_in result ≤ most_pages }
{
    let mut link = first as usize;
    for _ in 0..pcap {
        if link == 0 {
            return Err(Lost::Missing);
        }
        if link > pcap {
            return Err(Lost::Broken);
        }
        let at = base + (link - 1);
        link = pages[at] as usize;
        if link == p + 1 {
            pages[at] = pages[base + p];
            return Ok(first);
        }
    }
    Err(Lost::Broken)
}

// Page p out of the chain that begins at a link; the link that it begins with then. Of the first page only the answer tells.
#[tactic(auto, unfolding(crate::specs::Take::take_page))]
pub fn take_page(
    pages: &mut [u32],
    pcap: usize,
    base: usize,
    first: u32,
    p: usize,
) -> Result<u32, Lost>
    requires page_table { PageTable pcap base pages.old }
    requires p_lt_pcap { p < pcap }
    requires first_le_most_pages { first ≤ most_pages }
    ensures result_after { took pages.new result ≡ take_page pages.old pcap base first p }
    ensures inside { link_in result ≤ most_pages }
{
    if first as usize != p + 1 {
        return take_behind(pages, pcap, base, first, p);
    }
    let after = pages[base + p];
    if after as usize > pcap {
        return Err(Lost::Broken);
    }
    Ok(after)
}

// Path and leaf stay two parameters with their clauses: a struct would be made once for each block and opened in all three functions.

// Up from an empty leaf: where it is not the root it is freed, and the node above is an empty leaf in its turn where it has no child
// left. The path has the nodes above. The free link then.
#[tactic(auto, unfolding(crate::specs::Prune::prune_up))]
fn prune_up(nodes: &mut [u32], cap: usize, path: &[Passed; 64], leaf: Reached, free: u32) -> u32
    requires node_table { NodeTable cap nodes.old }
    requires node_lt_cap { (leaf.node < cap) × (leaf.slot < node_words cap) × (leaf.level ≤ 64) }
    requires in_table { InTable cap (noted path.now) leaf.level }
    ensures { freed nodes.new result ≡ prune_up nodes.old cap (noted path.now) leaf.level leaf.node leaf.slot free }
{
    let mut n = leaf.node;
    let mut slot = leaf.slot;
    let mut link = free;
    for level in (0..leaf.level).rev() {
        link = free_child(nodes, cap, slot, n, link);
        n = path[level].node as usize;
        slot = path[level].slot as usize;
        if !is_bare(nodes, cap, n) {
            return link;
        }
        set_state(nodes, cap, n, State::Empty);
    }
    link
}

// A leaf with one page less, the first at a link; where it has none, nodes are freed from it on up. The free link then.
#[tactic(auto, unfolding(crate::specs::Remove::shorten_leaf))]
pub fn shorten_leaf(
    nodes: &mut [u32],
    cap: usize,
    path: &[Passed; 64],
    leaf: Reached,
    link: u32,
    free: u32,
) -> u32
    requires node_table { NodeTable cap nodes.old }
    requires node_lt_cap { (leaf.node < cap) × (leaf.slot < node_words cap) × (leaf.level ≤ 64) }
    requires in_table { InTable cap (noted path.now) leaf.level }
    requires link_le_most_pages { link ≤ most_pages }
    ensures { freed nodes.new result ≡ shorten_leaf nodes.old cap (noted path.now) leaf.node leaf.slot leaf.level link free }
{
    if link > 0 {
        shorten(nodes, cap, leaf.node, link);
        return free;
    }
    set_state(nodes, cap, leaf.node, State::Empty);
    prune_up(nodes, cap, path, leaf, free)
}

// Page p out of a leaf; the free link then, or none on unsound tables.
#[tactic(auto, unfolding(crate::specs::Remove::remove_at))]
pub fn remove_at(
    nodes: &mut [u32],
    pages: &mut [u32],
    block: Block,
    path: &[Passed; 64],
    leaf: Reached,
    p: usize,
    free: u32,
) -> Option<u32>
    requires node_table { NodeTable block.nodes nodes.old }
    requires page_table { PageTable block.pages block.base pages.old }
    requires node_lt_nodes { (leaf.node < block.nodes) × (leaf.slot < node_words block.nodes) × (leaf.level ≤ 64) × (p < block.pages) }
    requires in_table { InTable block.nodes (noted path.now) leaf.level }
    ensures { gone nodes.new pages.new result ≡ remove_at nodes.old pages.old block.nodes block.pages block.base (noted path.now) leaf.node leaf.slot leaf.level p free }
{
    let first = first_page(nodes, block.nodes, leaf.node);
    let link = take_page(pages, block.pages, block.base, first, p).ok()?;
    Some(shorten_leaf(nodes, block.nodes, path, leaf, link, free))
}

// Page p out of the leaf where its bytes lead. The array is for the path to it.
#[tactic(auto, unfolding(crate::specs::Remove::remove_page))]
pub fn remove_page(
    nodes: &mut [u32],
    pages: &mut [u32],
    path: &mut [Passed; 64],
    block: Block,
    root: usize,
    bytes: &[u8],
    p: usize,
    free: u32,
) -> Option<u32>
    requires node_table { NodeTable block.nodes nodes.old }
    requires page_table { PageTable block.pages block.base pages.old }
    requires root_lt_nodes { root < block.nodes }
    requires p_lt_pages { p < block.pages }
    requires bytes_len_bound { length bytes.now ≤ 64 }
    ensures { gone nodes.new pages.new result ≡ remove_page nodes.old pages.old block.nodes block.pages block.base root bytes.now p free }
{
    match trace_to(nodes, block.nodes, root, bytes, path)? {
        Reach::Leaf(leaf) => remove_at(nodes, pages, block, path, leaf, p, free),
        Reach::Gap(_) => None,
    }
}
