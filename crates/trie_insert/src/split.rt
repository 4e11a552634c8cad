// A leaf that is too long then is split: its pages go into leaves below.
ghost use Rattle.std.specs.Prelude.{◌≡◌, ◌+◌, ◌<◌};
ghost use Rattle.layout.specs.Tables.{NodeTable, PageTable};
ghost use Rattle.blocks.specs.Tables.{SketchTable};
ghost use Rattle.trie_insert.specs.Pages.{after};
ghost use Rattle.trie_insert.specs.Split.{split_from, too_long, split_leaf, grow_leaf};

use crate::pages::{push_page, put_leaf};
use blocks::Level;
use layout::Block;
use layout::nodes::{State, page_count, set_state};
use trie::Stop;
use trie::growth::Growth;
use trie::leaf::Grown;

// The pages of a chain, each in turn put into the child leaf of its byte; the answer is node n. No `Growth`: it would ask more of the
// caller, rows and thresholds, of which nothing is read here.
#[tactic(auto, unfolding(crate::specs::Split::split_from))]
pub fn split_pages(
    nodes: &mut [u32],
    pages: &mut [u32],
    sketches: &[u8],
    block: Block,
    level: Level,
    n: usize,
    first: u32,
    free: u32,
) -> Result<Grown, Stop>
    requires node_table { NodeTable block.nodes nodes.old }
    requires page_table { PageTable block.pages block.base pages.old }
    requires sketch_table { SketchTable block.pages level sketches.now }
    requires n_lt_nodes { n < block.nodes }
    ensures { after nodes.new pages.new result ≡ split_from sketches.now level block.nodes block.pages block.base n nodes.old pages.old first free (block.pages + 1) }
{
    let mut link = first as usize;
    let mut next_free = free;
    for _ in 0..block.pages + 1 {
        if link == 0 {
            return Ok(Grown {
                node: n,
                free: next_free,
            });
        }
        let p = link - 1;
        if p >= block.pages {
            return Err(Stop::Broken);
        }
        let next = pages[block.base + p] as usize;
        let byte = level.page_byte(sketches, block, p);
        let grown = put_leaf(nodes, pages, block, n, byte, p, next_free)?;
        next_free = grown.free;
        link = next;
    }
    Err(Stop::Broken)
}

// Whether leaf n at level k is too long, by the number that stands in it.
#[tactic(auto, unfolding(crate::specs::Split::too_long))]
fn too_long(nodes: &[u32], growth: &Growth<'_>, k: usize, n: usize) -> bool
    requires node_table { NodeTable growth.now.block.nodes nodes.now }
    requires n_lt_nodes { n < growth.now.block.nodes }
    ensures { result ≡ too_long growth.now.thresholds.now growth.now.rows nodes.now growth.now.block.nodes k n }
{
    if k >= growth.rows.bytes {
        return false;
    }
    growth.thresholds[k] < page_count(nodes, growth.block.nodes, n)
}

// Leaf n at level k as an inner node without children, its pages, which are loose then, in leaves below.
#[tactic(auto, unfolding(crate::specs::Split::split_leaf))]
fn split_leaf(
    nodes: &mut [u32],
    pages: &mut [u32],
    growth: &Growth<'_>,
    k: usize,
    n: usize,
    first: u32,
    free: u32,
) -> Result<Grown, Stop>
    requires node_table { NodeTable growth.now.block.nodes nodes.old }
    requires page_table { PageTable growth.now.block.pages growth.now.block.base pages.old }
    requires k_bound { k < 64 }
    requires n_lt_nodes { n < growth.now.block.nodes }
    ensures { after nodes.new pages.new result ≡ split_leaf growth.now.sketches.now growth.now.rows growth.now.block.nodes growth.now.block.pages growth.now.block.base nodes.old pages.old k n first free }
{
    let block = growth.block;
    let level = growth.rows.level_at(k);
    set_state(nodes, block.nodes, n, State::Inner);
    split_pages(nodes, pages, growth.sketches, block, level, n, first, free)
}

// A page put into leaf n at level k, which is split where it is too long then.
pub fn grow_leaf(
    nodes: &mut [u32],
    pages: &mut [u32],
    growth: &Growth<'_>,
    k: usize,
    n: usize,
    p: usize,
    free: u32,
) -> Result<Grown, Stop>
    requires node_table { NodeTable growth.now.block.nodes nodes.old }
    requires page_table { PageTable growth.now.block.pages growth.now.block.base pages.old }
    requires n_lt_nodes { n < growth.now.block.nodes }
    requires p_lt_pages { p < growth.now.block.pages }
    ensures { after nodes.new pages.new result ≡ grow_leaf growth.now.sketches.now growth.now.thresholds.now growth.now.rows growth.now.block.nodes growth.now.block.pages growth.now.block.base nodes.old pages.old k n p free }
{
    push_page(nodes, pages, growth.block, n, p)?;
    if !too_long(nodes, growth, k, n) {
        return Ok(Grown { node: n, free });
    }
    let first = (p + 1) as u32;
    split_leaf(nodes, pages, growth, k, n, first, free)
}
