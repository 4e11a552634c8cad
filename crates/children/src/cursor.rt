// The children of a node one after the other, as the words lead: in sound tables in rising byte. `order` tests that they are.
ghost use Rattle.std.specs.Prelude.{◌≡◌, ◌<◌};
ghost use Rattle.layout.specs.Nodes.{node_words};
ghost use Rattle.layout.specs.Tables.{NodeTable};
ghost use Rattle.children.specs.Cursors.{all_of, look_at, next_of, first_for};

use layout::nodes::{byte_of, head_at, link_of};

// The children from `link` on in the chain whose head is at `at`, and those in the chains of the next heads, up to `last`.
#[derive(Clone, Copy, Debug, PartialEq, Eq)]
pub struct Cursor {
    pub at: u32,
    pub last: u32,
    pub link: u32,
}

// A child that a link leads to: its number, its byte, and the link after it.
#[derive(Clone, Copy, Debug, PartialEq, Eq)]
pub struct Child {
    pub node: u32,
    pub byte: u32,
    pub link: u32,
}

// What comes next. The child by its parts: a `Child` here would be opened by the one match that asks.
#[derive(Clone, Copy, Debug, PartialEq, Eq)]
pub enum Next {
    Child { node: u32, byte: u32, link: u32 },
    // the next chain: where its head is, and its first link
    Chain { at: u32, link: u32 },
    // no child is left
    End,
}

// All children of node x.
#[tactic(auto, unfolding(crate::specs::Cursors::all_of))]
pub fn all(nodes: &[u32], cap: usize, x: usize) -> Cursor
    requires node_table { NodeTable cap nodes.now }
    requires x_lt_cap { x < cap }
    ensures { result ≡ all_of nodes.now cap x }
{
    let first = head_at(cap, x, 0);
    let last = head_at(cap, x, 7);
    Cursor {
        at: first as u32,
        last: last as u32,
        link: link_of(nodes[first]),
    }
}

// The child at a link, or none: a link past the capacity leads to no node.
#[tactic(auto, unfolding(crate::specs::Cursors::look_at))]
pub fn look(nodes: &[u32], cap: usize, link: u32) -> Option<Child>
    requires node_table { NodeTable cap nodes.now }
    requires link_nonzero { 0 < link }
    ensures { result ≡ look_at nodes.now cap link }
{
    let x = link - 1;
    if x as usize >= cap {
        return None;
    }
    let w = nodes[x as usize];
    Some(Child {
        node: x,
        byte: byte_of(w),
        link: link_of(w),
    })
}

// The next step: along the chain, else to the next chain; none where a link leads outside.
#[tactic(auto, unfolding(crate::specs::Cursors::next_of))]
pub fn step(nodes: &[u32], cap: usize, c: Cursor) -> Option<Next>
    requires node_table { NodeTable cap nodes.now }
    requires last_bound { c.last < node_words cap }
    ensures { result ≡ next_of nodes.now cap c }
{
    if c.link != 0 {
        let Child { node, byte, link } = look(nodes, cap, c.link)?;
        return Some(Next::Child { node, byte, link });
    }
    if c.at >= c.last {
        return Some(Next::End);
    }
    let at = c.at + 1;
    Some(Next::Chain {
        at,
        link: link_of(nodes[at as usize]),
    })
}

// The link to the first child of node x in the chain of a byte.
#[tactic(auto, unfolding(crate::specs::Cursors::first_for))]
pub fn first_for(nodes: &[u32], cap: usize, x: usize, byte: u8) -> u32
    requires node_table { NodeTable cap nodes.now }
    requires x_lt_cap { x < cap }
    ensures { result ≡ first_for nodes.now cap x byte }
{
    link_of(nodes[head_at(cap, x, (byte / 32) as usize)])
}
