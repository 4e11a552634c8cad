// The step to the next child of an inner node that is to be tested; none where the node is not in order.
ghost use Rattle.std.specs.Prelude.{◌≡◌, ◌<◌};
ghost use Rattle.node_check.specs.Frame.{step_in};

use crate::scope::Scope;
use children::order::{Frame, Step, next_child};

// In a node at level k: the byte of a child is to be such as packing can give there.
#[tactic(auto, unfolding(crate::specs::Frame::step_in))]
pub fn next_step(scope: &Scope<'_>, k: usize, frame: Frame) -> Option<Step>
    requires level { k < scope.now.rows.bytes }
    requires node_lt_cap { (frame.node < scope.now.block.nodes) × (frame.group < 8) }
    ensures { result ≡ step_in scope.now.nodes.now scope.now.block.nodes scope.now.rows.bits scope.now.rows.length k frame }
{
    let step = next_child(scope.nodes, scope.block.nodes, frame)?;
    if let Step::Child { byte, .. } = step {
        if !sketch::packing::packable(scope.rows.bits, scope.rows.length, k, byte) {
            return None;
        }
    }
    Some(step)
}
