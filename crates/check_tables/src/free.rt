// The free chain, from the free link on: its nodes are free and have no children, and it ends within the capacity.
ghost use Rattle.std.specs.Prelude.{◌≡◌, ◌<◌};
ghost use Rattle.layout.specs.Tables.{NodeTable};
ghost use Rattle.check_tables.specs.Free.{is_free, test_free};

use layout::nodes::{Kind, next_free};

#[tactic(auto, unfolding(crate::specs::Free::is_free))]
fn is_free(nodes: &[u32], cap: usize, x: usize) -> bool
    requires node_table { NodeTable cap nodes.now }
    requires x_lt_cap { x < cap }
    ensures { result ≡ is_free nodes.now cap x }
{
    match layout::nodes::kind_of(nodes, cap, x) {
        Kind::Free => children::order::is_bare(nodes, cap, x),
        Kind::Inner => false,
        Kind::Leaf(_) => false,
    }
}

// How many nodes are not free, where all on the chain are; none where one is not.
#[tactic(auto, unfolding(crate::specs::Free::test_free))]
pub fn test_free(nodes: &[u32], cap: usize, first: u32) -> Option<u32>
    requires { NodeTable cap nodes.now }
    ensures { result ≡ test_free nodes.now cap first }
{
    let mut link = first;
    for left in (0..cap as u32 + 1).rev() {
        if link == 0 {
            return Some(left);
        }
        let x = (link as usize) - 1;
        if x >= cap {
            return None;
        }
        if !is_free(nodes, cap, x) {
            return None;
        }
        link = next_free(nodes, cap, x);
    }
    None
}
