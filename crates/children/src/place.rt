// The children of a node, by their bytes.
ghost use Rattle.std.specs.Prelude.{◌≡◌, ◌<◌};
ghost use Rattle.layout.specs.Tables.{NodeTable};
ghost use Rattle.children.specs.Places.{Inside, find_place};

use layout::nodes::{byte_of, head_at, link_of};

// Where a byte belongs among a node's children: the slot that links to its child, with the child, or that is to.
#[derive(Clone, Copy, Debug, PartialEq, Eq)]
pub enum Place {
    Found { slot: usize, child: usize },
    Missing { slot: usize },
}

// A chain has at most 32 children: the budget is enough for every sound table. No search of the library: the children are linked
// through the node table that C lends. None on unsound tables.
#[tactic(auto, unfolding(crate::specs::Places::find_place))]
pub fn find_place(nodes: &[u32], cap: usize, n: usize, byte: u8) -> Option<Place>
    requires node_table { NodeTable cap nodes.now }
    requires n_lt_cap { n < cap }
    ensures value { result ≡ find_place nodes.now cap n byte }
    ensures inside { Inside cap result }
{
    let mut slot = head_at(cap, n, (byte / 32) as usize);
    for _ in 0..33usize {
        let link = link_of(nodes[slot]) as usize;
        if link == 0 {
            return Some(Place::Missing { slot });
        }
        if cap < link {
            return None;
        }
        let child = link - 1;
        let b = byte_of(nodes[child]);
        if b < byte as u32 {
            slot = child;
        } else {
            if b == byte as u32 {
                return Some(Place::Found { slot, child });
            }
            return Some(Place::Missing { slot });
        }
    }
    None
}
