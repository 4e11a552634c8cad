// Empty leaves made of free nodes, and made free again. The free nodes are linked through their chain words.
ghost use Rattle.std.specs.Prelude.{◌≡◌, ◌+◌, ◌<◌, ◌≤◌};
ghost use Rattle.layout.specs.Nodes.{node_words};
ghost use Rattle.layout.specs.Tables.{NodeTable};
ghost use Rattle.trie.specs.Model.{link_leaf, made, fresh_leaf, child_leaf, node_in, free_child};

use crate::Stop;
use children::links::{put_in, take_out};
use children::place::{Place, find_place};
use layout::nodes::{State, next_free, set_free, set_state};

// Node f as an empty leaf with a byte, linked into a slot before what the slot linked to.
#[tactic(auto, unfolding(crate::specs::Model::link_leaf))]
fn link_leaf(nodes: &mut [u32], cap: usize, slot: usize, f: usize, byte: u8)
    requires node_table { NodeTable cap nodes.old }
    requires slot_bound { slot < node_words cap }
    requires f_lt_cap { f < cap }
    ensures { nodes.new ≡ link_leaf nodes.old cap slot f byte }
{
    set_state(nodes, cap, f, State::Empty);
    put_in(nodes, cap, slot, f, byte);
}

// A node that was found or made, or that a page was put into, with the first free link then.
#[derive(Clone, Copy, Debug, PartialEq, Eq)]
pub struct Grown {
    pub node: usize,
    pub free: u32,
}

// The first free node as an empty leaf with a byte, linked into a slot.
#[tactic(auto, unfolding(crate::specs::Model::fresh_leaf))]
pub fn fresh_leaf(
    nodes: &mut [u32],
    cap: usize,
    slot: usize,
    byte: u8,
    free: u32,
) -> Result<Grown, Stop>
    requires node_table { NodeTable cap nodes.old }
    requires slot_bound { slot < node_words cap }
    ensures result_after { made nodes.new result ≡ fresh_leaf nodes.old cap slot byte free }
    ensures inside { node_in result ≤ cap }
{
    if free == 0 {
        return Err(Stop::Full);
    }
    let f = (free as usize) - 1;
    if f >= cap {
        return Err(Stop::Broken);
    }
    let next = next_free(nodes, cap, f);
    link_leaf(nodes, cap, slot, f, byte);
    Ok(Grown {
        node: f,
        free: next,
    })
}

// The child of a byte, which is made, an empty leaf, where it is missing.
#[tactic(auto, unfolding(crate::specs::Model::child_leaf))]
pub fn child_leaf(
    nodes: &mut [u32],
    cap: usize,
    n: usize,
    byte: u8,
    free: u32,
) -> Result<Grown, Stop>
    requires node_table { NodeTable cap nodes.old }
    requires n_lt_cap { n < cap }
    ensures result_after { made nodes.new result ≡ child_leaf nodes.old cap n byte free }
    ensures inside { node_in result ≤ cap }
{
    match find_place(nodes, cap, n, byte).ok_or(Stop::Broken)? {
        Place::Found { child, .. } => Ok(Grown { node: child, free }),
        Place::Missing { slot } => fresh_leaf(nodes, cap, slot, byte, free),
    }
}

// A child leaf without pages, out of the chain at a slot and first among the free nodes; the new free link.
#[tactic(auto, unfolding(crate::specs::Model::free_child))]
pub fn free_child(nodes: &mut [u32], cap: usize, slot: usize, child: usize, free: u32) -> u32
    requires node_table { NodeTable cap nodes.old }
    requires slot_bound { slot < node_words cap }
    requires child_lt_cap { child < cap }
    ensures value { result ≡ child + 1 }
    ensures nodes_after { nodes.new ≡ free_child nodes.old cap slot child free }
{
    take_out(nodes, cap, slot, child);
    set_free(nodes, cap, child, free);
    (child + 1) as u32
}
