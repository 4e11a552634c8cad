// The walk over one block's trie. It ends on any tables: each step, node and page draws on a budget. No twin of a search's walk, which
// stops at each leaf, draws on a radius and keeps no path: one function for both would take every step from its parameter.
ghost use Rattle.std.specs.Prelude.{◌≡◌, ◌+◌, ◌*◌, ◌-◌, ◌≤◌, ◌<◌, length};
ghost use Rattle.layout.specs.Tables.{NodeTable};
ghost use Rattle.children.specs.Order.{entered, past_child};
ghost use Rattle.node_check.specs.Scope.{within};
ghost use Rattle.trie_visit.specs.Visit.{placed};
ghost use Rattle.trie_check.specs.Trie.{left_if, tested, test_below, test_trie};

use children::order::{enter, next_chain, past_child};
use node_check::leaf::{Kind, kind_of, test_leaf};
use node_check::leaves::Leaves;
use node_check::scope::Scope;
use trie_visit::{Move, Place, visit};

// After a leaf with a byte: `link` is after it, `pages` what is left of the page budget.
fn past_leaf(place: Place, byte: u8, link: u32, pages: u32) -> Place
    requires { 0 < place.left }
    ensures { result ≡ placed place.depth (past_child place.frame byte link) (place.left - 1) pages }
{
    Place {
        frame: past_child(place.frame, byte, link),
        left: place.left - 1,
        pages,
        ..place
    }
}

// In an inner node x, a level below.
#[tactic(auto, unfolding(children::specs::Order::entered))]
fn enter_child(nodes: &[u32], cap: usize, place: Place, x: u32) -> Place
    requires node_table { NodeTable cap nodes.now }
    requires x_lt_cap { x < cap }
    requires depth_bound { (place.depth < 64) × (0 < place.left) }
    ensures { result ≡ placed (place.depth + 1) (entered nodes.now cap x) (place.left - 1) place.pages }
{
    Place {
        depth: place.depth + 1,
        frame: enter(nodes, cap, x as usize),
        left: place.left - 1,
        ..place
    }
}

// Tests what is below an inner root. What is left of the node budget; the page budget is to be spent. The map's size is a clause here and in
// `test_trie`: it is lent with `&mut` beside the scope.
fn test_below(scope: &Scope<'_>, map: &mut [u32], root: usize, left: u32, live: u32) -> Option<u32>
    requires bitmap { scope.now.window.size ≤ 32 * length map.old }
    requires root_lt_nodes { root < scope.now.block.nodes }
    ensures { tested map.new result ≡ test_below (within scope.now) root map.old left live }
{
    let nodes = scope.nodes;
    let cap = scope.block.nodes;
    let frame = enter(nodes, cap, root);
    let mut place = Place {
        depth: 0,
        frame,
        left,
        pages: live,
    };
    // Fixed memory inside a call: a trie has at most 64 levels.
    let mut stack = [frame; 64];
    let mut path = [0u8; 64];
    for _turn in 0..layout::nodes::STEPS * (cap + 1) {
        let next = visit(scope, map, &mut path, place)?;
        match next {
            Move::Chain(link) => {
                place.frame = next_chain(place.frame, link);
            }
            Move::Past { byte, link, pages } => {
                place = past_leaf(place, byte, link, pages);
            }
            Move::Down { node, byte, link } => {
                let depth = place.depth;
                stack[depth] = past_child(place.frame, byte, link);
                place = enter_child(nodes, cap, place, node);
            }
            Move::Up => {
                if place.depth == 0 {
                    return (place.pages == 0).then_some(place.left);
                }
                let depth = place.depth - 1;
                place.depth = depth;
                place.frame = stack[depth];
            }
        }
    }
    None
}

// Tests the trie of the block with this root, in which as many pages are to stand as `live`. What is left of a budget of nodes.
#[tactic(auto, unfolding(crate::specs::Trie::test_trie, crate::specs::Trie::left_if))]
pub fn test_trie(
    scope: &Scope<'_>,
    map: &mut [u32],
    root: usize,
    budget: u32,
    live: u32,
) -> Option<u32>
    requires bitmap { scope.now.window.size ≤ 32 * length map.old }
    requires root_lt_nodes { root < scope.now.block.nodes }
    ensures { tested map.new result ≡ test_trie (within scope.now) root map.old budget live }
{
    if budget == 0 {
        return None;
    }
    if !node_check::mark::mark_once(map, scope.window, root) {
        return None;
    }
    let left = budget - 1;
    match kind_of(scope.nodes, scope.block.nodes, root)? {
        Kind::Inner => test_below(scope, map, root, left, live),
        Kind::Leaf(first) => {
            let path = [0u8; 64];
            let count = layout::nodes::page_count(scope.nodes, scope.block.nodes, root);
            let leaves = Leaves {
                pages: scope.pages,
                sketches: scope.sketches,
                block: scope.block,
                rows: scope.rows,
            };
            let n = test_leaf(&leaves, &path, 0, first, count, live)?;
            (n == 0).then_some(left)
        }
    }
}
