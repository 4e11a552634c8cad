// A page put into a leaf.
ghost use Rattle.std.specs.Prelude.{◌≡◌, ◌<◌};
ghost use Rattle.layout.specs.Tables.{NodeTable, PageTable};
ghost use Rattle.trie_insert.specs.Pages.{pushed, push_page, after, put_leaf_m};

use layout::Block;
use layout::nodes::{Kind, kind_of, lengthen};
use trie::Stop;
use trie::leaf::{Grown, child_leaf};

// A page put first into a leaf; refused where the node is none.
#[tactic(auto, unfolding(crate::specs::Pages::push_page))]
pub fn push_page(
    nodes: &mut [u32],
    pages: &mut [u32],
    block: Block,
    n: usize,
    p: usize,
) -> Result<(), Stop>
    requires node_table { NodeTable block.nodes nodes.old }
    requires page_table { PageTable block.pages block.base pages.old }
    requires n_lt_nodes { n < block.nodes }
    requires p_lt_pages { p < block.pages }
    ensures { pushed nodes.new pages.new result ≡ push_page nodes.old pages.old block.nodes block.base n p }
{
    match kind_of(nodes, block.nodes, n) {
        Kind::Leaf(first) => {
            pages[block.base + p] = first;
            lengthen(nodes, block.nodes, n, (p + 1) as u32);
            Ok(())
        }
        Kind::Inner | Kind::Free => Err(Stop::Broken),
    }
}

// A page put into the child leaf of a byte.
#[tactic(auto, unfolding(crate::specs::Pages::put_leaf_m))]
pub fn put_leaf(
    nodes: &mut [u32],
    pages: &mut [u32],
    block: Block,
    n: usize,
    byte: u8,
    p: usize,
    free: u32,
) -> Result<Grown, Stop>
    requires node_table { NodeTable block.nodes nodes.old }
    requires page_table { PageTable block.pages block.base pages.old }
    requires n_lt_nodes { n < block.nodes }
    requires p_lt_pages { p < block.pages }
    ensures { after nodes.new pages.new result ≡ put_leaf_m nodes.old pages.old block.nodes block.base n byte p free }
{
    let grown = child_leaf(nodes, block.nodes, n, byte, free)?;
    push_page(nodes, pages, block, grown.node, p)?;
    Ok(grown)
}
