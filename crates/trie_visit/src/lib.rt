// A visit: one step of the walk over a block's trie, and the test of the child that it leads to.
#![tactic(auto)]

ghost use Rattle.std.specs.Prelude.{◌≡◌, ◌*◌, ◌≤◌, ◌<◌, length};
ghost use Rattle.node_check.specs.Scope.{within};
ghost use Rattle.trie_visit.specs.Visit.{seen, visit_child, visited, visit};

use children::order::{Frame, Step};
use node_check::leaf::{Kind, kind_of, test_leaf};
use node_check::leaves::Leaves;
use node_check::scope::Scope;

// Where a walk stands: the level, the children still to be tested there, and what is left of the node and the page budget.
#[derive(Clone, Copy, Debug, PartialEq, Eq)]
pub struct Place {
    pub depth: usize,
    pub frame: Frame,
    pub left: u32,
    pub pages: u32,
}

// A child that was tested: its number, its byte, and the link after it. Beside the `Child` of `children`, whose byte is what a word holds,
// up to 13 bits: here the type says that it is a byte.
#[derive(Clone, Copy, Debug, PartialEq, Eq)]
struct Child {
    node: u32,
    byte: u8,
    link: u32,
}

// Where a visit leads. An enum and no closure for each: the walk alone has the stack that a move changes.
#[derive(Clone, Copy, Debug, PartialEq, Eq)]
pub enum Move {
    // to the next chain, by its first link
    Chain(u32),
    // past a leaf with a byte, to the link after it, with what is left of the page budget
    Past { byte: u8, link: u32, pages: u32 },
    // to an inner node with a byte; `link` is after it
    Down { node: u32, byte: u8, link: u32 },
    // back to the node above
    Up,
}

// Tests a child of the node where the walk stands. None where the trie is not sound. The map's size is a clause, and no part of the scope:
// a visit writes the map, which is lent with `&mut` beside it.
#[tactic(auto, unfolding(crate::specs::Visit::visit_child))]
fn visit_child(
    scope: &Scope<'_>,
    map: &mut [u32],
    path: &[u8; 64],
    place: Place,
    child: Child,
) -> Option<Move>
    requires bitmap { scope.now.window.size ≤ 32 * length map.old }
    requires node_lt_nodes { (child.node < scope.now.block.nodes) × (place.depth < scope.now.rows.bytes) }
    ensures { seen map.new result ≡ visit_child (within scope.now) map.old path.now place.depth child.node child.byte child.link place.pages }
{
    let x = child.node as usize;
    if !node_check::mark::mark_once(map, scope.window, x) {
        return None;
    }
    let below = place.depth + 1;
    match kind_of(scope.nodes, scope.block.nodes, x)? {
        Kind::Inner => {
            if below >= scope.rows.bytes {
                return None;
            }
            Some(Move::Down {
                node: child.node,
                byte: child.byte,
                link: child.link,
            })
        }
        Kind::Leaf(first) => {
            if first == 0 {
                return None;
            }
            let count = layout::nodes::page_count(scope.nodes, scope.block.nodes, x);
            let leaves = Leaves {
                pages: scope.pages,
                sketches: scope.sketches,
                block: scope.block,
                rows: scope.rows,
            };
            let pages = test_leaf(&leaves, path, below, first, count, place.pages)?;
            Some(Move::Past {
                byte: child.byte,
                link: child.link,
                pages,
            })
        }
    }
}

// Takes one step from a place, and tests the child that it leads to. None where the trie is not sound. From step to move no `From`: a match
// for its one use.
#[tactic(auto, unfolding(crate::specs::Visit::visit))]
pub fn visit(scope: &Scope<'_>, map: &mut [u32], path: &mut [u8; 64], place: Place) -> Option<Move>
    requires bitmap { scope.now.window.size ≤ 32 * length map.old }
    requires node_lt_nodes { (place.frame.node < scope.now.block.nodes) × (place.frame.group < 8) × (place.depth < scope.now.rows.bytes) }
    ensures { visited map.new path.new result ≡ visit (within scope.now) map.old path.old place.depth place.frame place.left place.pages }
{
    let depth = place.depth;
    let step = node_check::frame::next_step(scope, depth, place.frame)?;
    match step {
        Step::Chain(link) => Some(Move::Chain(link)),
        Step::Up => Some(Move::Up),
        Step::Child { node, byte, link } => {
            if place.left == 0 {
                return None;
            }
            path[depth] = byte;
            let child = Child { node, byte, link };
            visit_child(scope, map, path, place, child)
        }
    }
}
