// The children of a node one after the other, tested on the way: the bytes rise, and belong to their chain.
ghost use Rattle.std.specs.Prelude.{◌≡◌, ◌≤◌, ◌<◌};
ghost use Rattle.layout.specs.Tables.{NodeTable};
ghost use Rattle.children.specs.Order.{bare, entered, past_child, next_chain, step_along, next_child};

use layout::nodes::{byte_of, head_at, link_of};

// Has node x no children: are all its heads 0?
#[tactic(auto, unfolding(crate::specs::Order::bare, meaning::specs::Lists::upto))]
pub fn is_bare(nodes: &[u32], cap: usize, x: usize) -> bool
    requires node_table { NodeTable cap nodes.now }
    requires x_lt_cap { x < cap }
    ensures { result ≡ bare nodes.now cap x }
{
    for g in 0..8 {
        if nodes[head_at(cap, x, g)] != 0 {
            return false;
        }
    }
    true
}

// The children of a node from `link` on in chain `group`, whose bytes are to be `least` or more, and those in the later chains.
// Not generic with `cursor`, which reads a head's link alone and tests no byte: each test here would be a branch on the type.
#[derive(Clone, Copy, Debug, PartialEq, Eq)]
pub struct Frame {
    pub node: u32,
    pub group: u32,
    pub link: u32,
    pub least: u32,
}

// A step to what is still to come of a frame. An enum: three things can come next.
#[derive(Clone, Copy, Debug, PartialEq, Eq)]
pub enum Step {
    // to the next chain, by its first link
    Chain(u32),
    // to a child; `link` is the one after it
    Child { node: u32, byte: u8, link: u32 },
    // no child is left
    Up,
}

// All children of node x.
#[tactic(auto, unfolding(crate::specs::Order::entered))]
pub fn enter(nodes: &[u32], cap: usize, x: usize) -> Frame
    requires node_table { NodeTable cap nodes.now }
    requires x_lt_cap { x < cap }
    ensures { result ≡ entered nodes.now cap x }
{
    Frame {
        node: x as u32,
        group: 0,
        link: nodes[head_at(cap, x, 0)],
        least: 0,
    }
}

// The children after one with a byte, from a link on.
pub fn past_child(frame: Frame, byte: u8, link: u32) -> Frame
    ensures { result ≡ past_child frame byte link }
{
    Frame {
        link,
        least: byte as u32 + 1,
        ..frame
    }
}

// The children in the next chain, from its first link on, and in those after it.
pub fn next_chain(frame: Frame, link: u32) -> Frame
    requires { frame.group < 7 }
    ensures { result ≡ next_chain frame link }
{
    let group = frame.group + 1;
    Frame {
        group,
        link,
        least: 32 * group,
        ..frame
    }
}

// The step to the next child of a chain; none where a link or a byte is not in order.
#[tactic(auto, unfolding(crate::specs::Order::step_along))]
fn step_along(nodes: &[u32], cap: usize, frame: Frame) -> Option<Step>
    requires node_table { NodeTable cap nodes.now }
    requires link_nonzero { (0 < frame.link) × (frame.group < 8) }
    ensures { result ≡ step_along nodes.now cap frame }
{
    let x = frame.link - 1;
    if x as usize >= cap {
        return None;
    }
    let w = nodes[x as usize];
    let byte = byte_of(w);
    if byte < frame.least {
        return None;
    }
    if 32 * frame.group + 31 < byte {
        return None;
    }
    Some(Step::Child {
        node: x,
        byte: byte as u8,
        link: link_of(w),
    })
}

// The next step: along the chain, else to the next chain, else up; none where a link or a byte is not in order.
#[tactic(auto, unfolding(crate::specs::Order::next_child))]
pub fn next_child(nodes: &[u32], cap: usize, frame: Frame) -> Option<Step>
    requires node_table { NodeTable cap nodes.now }
    requires node_lt_cap { (frame.node < cap) × (frame.group < 8) }
    ensures { result ≡ next_child nodes.now cap frame }
{
    if frame.link != 0 {
        return step_along(nodes, cap, frame);
    }
    if frame.group >= 7 {
        return Some(Step::Up);
    }
    let g = frame.group as usize + 1;
    Some(Step::Chain(nodes[head_at(cap, frame.node as usize, g)]))
}
