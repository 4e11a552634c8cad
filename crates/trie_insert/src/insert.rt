// A page put into one block's trie.
ghost use Rattle.std.specs.Prelude.{◌≡◌, ◌<◌, ◌≤◌};
ghost use Rattle.layout.specs.Tables.{NodeTable, PageTable};
ghost use Rattle.trie_insert.specs.Pages.{after};
ghost use Rattle.trie_insert.specs.Insert.{aimed, leaf_for, target_in, insert_page};

use crate::split::grow_leaf;
use trie::Stop;
use trie::growth::Growth;
use trie::leaf::{Grown, fresh_leaf};
use trie::path::{Reach, descend_to};

// A leaf that a page belongs into, with its level and the first free link.
#[derive(Clone, Copy, Debug, PartialEq, Eq)]
pub struct Target {
    pub leaf: usize,
    pub level: usize,
    pub free: u32,
}

// The leaf that bytes lead to, which is made, empty, where it is missing.
#[tactic(auto, unfolding(crate::specs::Insert::leaf_for))]
pub fn leaf_for(
    nodes: &mut [u32],
    cap: usize,
    bytes: &[u8],
    root: usize,
    free: u32,
) -> Result<Target, Stop>
    requires node_table { NodeTable cap nodes.old }
    requires root_lt_cap { root < cap }
    ensures result_after { aimed nodes.new result ≡ leaf_for nodes.old cap bytes.now root free }
    ensures inside { target_in result ≤ cap }
{
    match descend_to(nodes, cap, root, bytes).ok_or(Stop::Broken)? {
        Reach::Leaf(at) => Ok(Target {
            leaf: at.node,
            level: at.level,
            free,
        }),
        Reach::Gap(at) => {
            let made = fresh_leaf(nodes, cap, at.slot, bytes[at.level], free)?;
            Ok(Target {
                leaf: made.node,
                level: at.level + 1,
                free: made.free,
            })
        }
    }
}

// A page put into the trie with a root, along its packed bytes.
pub fn insert_page(
    nodes: &mut [u32],
    pages: &mut [u32],
    growth: &Growth<'_>,
    bytes: &[u8],
    root: usize,
    p: usize,
    free: u32,
) -> Result<Grown, Stop>
    requires node_table { NodeTable growth.now.block.nodes nodes.old }
    requires page_table { PageTable growth.now.block.pages growth.now.block.base pages.old }
    requires root_lt_nodes { root < growth.now.block.nodes }
    requires p_lt_pages { p < growth.now.block.pages }
    ensures { after nodes.new pages.new result ≡ insert_page growth.now.sketches.now growth.now.thresholds.now growth.now.rows growth.now.block.nodes growth.now.block.pages growth.now.block.base nodes.old pages.old bytes.now root p free }
{
    let target = leaf_for(nodes, growth.block.nodes, bytes, root, free)?;
    grow_leaf(
        nodes,
        pages,
        growth,
        target.level,
        target.leaf,
        p,
        target.free,
    )
}
