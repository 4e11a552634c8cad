// A node put among the children of another, and taken out. A slot is the word that links to a child: a head, or the chain word before.
ghost use Rattle.std.specs.Prelude.{◌≡◌, ◌<◌};
ghost use Rattle.layout.specs.Nodes.{node_words};
ghost use Rattle.layout.specs.Tables.{NodeTable};
ghost use Rattle.children.specs.Links.{put_in, take_out};

use layout::nodes::{chain_word, link_of, with_link};

// Node x, with a byte, before what the slot linked to.
pub fn put_in(nodes: &mut [u32], cap: usize, slot: usize, x: usize, byte: u8)
    requires node_table { NodeTable cap nodes.old }
    requires slot_bound { slot < node_words cap }
    requires x_lt_cap { x < cap }
    ensures { nodes.new ≡ put_in nodes.old slot x byte }
{
    let old = nodes[slot];
    nodes[x] = chain_word(byte as u32, link_of(old));
    nodes[slot] = with_link(old, (x + 1) as u32);
}

// Child x, which the slot links to.
pub fn take_out(nodes: &mut [u32], cap: usize, slot: usize, x: usize)
    requires node_table { NodeTable cap nodes.old }
    requires slot_bound { slot < node_words cap }
    requires x_lt_cap { x < cap }
    ensures { nodes.new ≡ take_out nodes.old slot x }
{
    let next = link_of(nodes[x]);
    nodes[slot] = with_link(nodes[slot], next);
}
