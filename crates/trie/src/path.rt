// Where a page's bytes lead in one block's trie.
ghost use Rattle.std.specs.Prelude.{◌≡◌, ◌≤◌, ◌<◌, length, true};
ghost use Rattle.layout.specs.Tables.{NodeTable};
ghost use Rattle.trie.specs.Descend.{step_to, StepInside, descend_to, Inside, passed_at, noted, Noted, level_of};

use children::place::{Place, find_place};
use layout::nodes::{Kind, kind_of};

// What a node has for its next byte: the slot of a child, and the child; nothing, since it is a leaf; no child, and the slot where it
// belongs.
#[derive(Clone, Copy, Debug, PartialEq, Eq)]
pub enum Step {
    Child { slot: usize, child: usize },
    Leaf,
    Gap { slot: usize },
}

// One step down from node n at a level, by the byte there; none on unsound tables.
#[tactic(auto, unfolding(crate::specs::Descend::step_to))]
fn step_to(nodes: &[u32], cap: usize, bytes: &[u8], n: usize, level: usize) -> Option<Step>
    requires node_table { NodeTable cap nodes.now }
    requires n_lt_cap { n < cap }
    ensures value { result ≡ step_to nodes.now cap bytes.now n level }
    ensures inside { StepInside cap (length bytes.now) level result }
{
    match kind_of(nodes, cap, n) {
        Kind::Leaf(_) => return Some(Step::Leaf),
        Kind::Free => return None,
        Kind::Inner => {}
    }
    if level >= bytes.len() {
        return None;
    }
    // No `From`: the same two lines, for this one place.
    match find_place(nodes, cap, n, bytes[level])? {
        Place::Found { slot, child } => Some(Step::Child { slot, child }),
        Place::Missing { slot } => Some(Step::Gap { slot }),
    }
}

// The node where a way down ends, at a level. At a leaf the slot links to it, and is 0 at the root; at a gap the missing child belongs
// there.
#[derive(Clone, Copy, Debug, PartialEq, Eq)]
pub struct Reached {
    pub node: usize,
    pub slot: usize,
    pub level: usize,
}

// A leaf; or an inner node without a child for the next byte.
#[derive(Clone, Copy, Debug, PartialEq, Eq)]
pub enum Reach {
    Leaf(Reached),
    Gap(Reached),
}

// A node that a way down passes, and the slot that links to it, 0 at the root.
#[derive(Clone, Copy, Debug, PartialEq, Eq)]
pub struct Passed {
    pub node: u32,
    pub slot: u32,
}

// Down from a root by the bytes, a level for each; with NOTES, each inner node passed is noted at its level. None on unsound tables.
#[tactic(auto, unfolding(crate::specs::Descend::descend_to, crate::specs::Descend::passed_at))]
fn walk<const NOTES: bool>(
    nodes: &[u32],
    cap: usize,
    root: usize,
    bytes: &[u8],
    path: &mut [Passed],
) -> Option<Reach>
    requires node_table { NodeTable cap nodes.now }
    requires root_lt_cap { root < cap }
    requires room { NOTES ≡ true → length bytes.now ≤ length path.old }
    ensures value { result ≡ descend_to nodes.now cap root bytes.now }
    ensures inside { Inside cap (length bytes.now) result }
    ensures path { NOTES ≡ true → Noted (noted path.new) (passed_at nodes.now cap root bytes.now) (level_of result) }
{
    let mut n = root;
    let mut slot = 0;
    let mut level = 0;
    // No `for`: a turn behind the last byte may end at a leaf, and behind a loop with that turn an answer would stand that is never given.
    loop {
        match step_to(nodes, cap, bytes, n, level)? {
            Step::Child { slot: s, child } => {
                if NOTES {
                    path[level] = Passed {
                        node: n as u32,
                        slot: slot as u32,
                    };
                }
                n = child;
                slot = s;
                level += 1;
            }
            Step::Leaf => {
                return Some(Reach::Leaf(Reached {
                    node: n,
                    slot,
                    level,
                }));
            }
            Step::Gap { slot } => {
                return Some(Reach::Gap(Reached {
                    node: n,
                    slot,
                    level,
                }));
            }
        }
    }
}

// The way down, with nothing noted.
pub fn descend_to(nodes: &[u32], cap: usize, root: usize, bytes: &[u8]) -> Option<Reach>
    requires node_table { NodeTable cap nodes.now }
    requires root_lt_cap { root < cap }
    ensures value { result ≡ descend_to nodes.now cap root bytes.now }
    ensures inside { Inside cap (length bytes.now) result }
{
    walk::<false>(nodes, cap, root, bytes, &mut [])
}

// The same way, with its nodes noted.
pub fn trace_to(
    nodes: &[u32],
    cap: usize,
    root: usize,
    bytes: &[u8],
    path: &mut [Passed; 64],
) -> Option<Reach>
    requires node_table { NodeTable cap nodes.now }
    requires root_lt_cap { root < cap }
    requires bytes_len_bound { length bytes.now ≤ 64 }
    ensures value { result ≡ descend_to nodes.now cap root bytes.now }
    ensures inside { Inside cap (length bytes.now) result }
    ensures path { Noted (noted path.new) (passed_at nodes.now cap root bytes.now) (level_of result) }
{
    walk::<true>(nodes, cap, root, bytes, path)
}
