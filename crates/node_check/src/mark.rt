// Nodes marked as they are met. The map has a bit for each node of a window; what lies outside it is left to another walk.
ghost use Rattle.std.specs.Prelude.{◌≡◌, ◌*◌, ◌≤◌, length};
ghost use Rattle.node_check.specs.Mark.{noted, mark_once};

// The nodes from `from` on, `size` of them.
#[derive(Clone, Copy, Debug, PartialEq, Eq)]
pub struct Window {
    pub from: usize,
    pub size: usize,
}

// Marks node x where it lies in the window. Was it not marked before? A bool, since it answers yes or no: the map is what is marked, and no
// part of the answer. Its size is a clause: a struct of the window and a map lent with `&mut` would be made anew for each window.
#[tactic(auto, unfolding(crate::specs::Mark::mark_once))]
pub fn mark_once(map: &mut [u32], window: Window, x: usize) -> bool
    requires { window.size ≤ 32 * length map.old }
    ensures { noted map.new result ≡ mark_once window map.old x }
{
    if x < window.from {
        return true;
    }
    let n = x - window.from;
    if n >= window.size {
        return true;
    }
    if words::has(map, 0, n) {
        return false;
    }
    words::set(map, 0, n, true);
    true
}
