// Whether enough nodes are free.
ghost use Rattle.std.specs.Prelude.{◌≡◌};
ghost use Rattle.layout.specs.Tables.{NodeTable};
ghost use Rattle.trie.specs.Model.{span_from};

use crate::Stop;
use layout::nodes::next_free;

// Are at least `need` nodes free? Their chain begins at link `first`.
#[tactic(auto, unfolding(crate::specs::Model::span_from))]
pub fn enough_free(nodes: &[u32], cap: usize, first: u32, need: usize) -> Result<(), Stop>
    requires { NodeTable cap nodes.now }
    ensures { result ≡ span_from nodes.now cap first need }
{
    let mut link = first as usize;
    for _ in 0..need {
        if link == 0 {
            return Err(Stop::Full);
        }
        if cap < link {
            return Err(Stop::Broken);
        }
        link = next_free(nodes, cap, link - 1) as usize;
    }
    Ok(())
}
