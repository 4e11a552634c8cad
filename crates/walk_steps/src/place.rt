// Where a walk stands between its steps.
ghost use Rattle.std.specs.Prelude.{◌≡◌, ◌<◌, length};
ghost use Rattle.layout.specs.Tables.{NodeTable};
ghost use Rattle.walk_steps.specs.Place.{on_chain, on_link, lowered, raised};

use crate::frame;
use crate::frame::Frame;

// The level, the children still to be gone through there, and what is left of the nodes that may be read and of the steps.
#[derive(Clone, Copy, Debug, PartialEq, Eq)]
pub struct Place {
    pub depth: usize,
    pub frame: Frame,
    pub nodes: u32,
    pub steps: u32,
}

impl Place {
    // In the next chain of the node, whose head is at `at`.
    pub fn on_chain(self, at: u32, link: u32) -> Place
        requires { 0 < self.steps }
        ensures { result ≡ on_chain self at link }
    {
        Place {
            frame: self.frame.at_chain(at, link),
            steps: self.steps - 1,
            ..self
        }
    }

    // Past a child, which is read: on from the link after it.
    pub fn on_link(self, link: u32) -> Place
        requires { (0 < self.nodes) × (0 < self.steps) }
        ensures { result ≡ on_link self link }
    {
        Place {
            frame: self.frame.at_chain(self.frame.cursor.at, link),
            nodes: self.nodes - 1,
            steps: self.steps - 1,
            ..self
        }
    }

    // In an inner node x, a level below.
    pub fn lower(self, nodes: &[u32], cap: usize, x: u32, radius: u32) -> Place
        requires node_table { NodeTable cap nodes.now }
        requires x_lt_cap { (x < cap) × (self.depth < 64) }
        ensures { result ≡ lowered nodes.now cap self x radius }
    {
        Place {
            depth: self.depth + 1,
            frame: frame::enter(nodes, cap, x as usize, radius),
            ..self
        }
    }

    // Back in the node above, whose frame lies in the stack.
    pub fn raise(self, stack: &[Frame; 64]) -> Place
        requires { (0 < self.depth) × (self.depth < 65) × (0 < self.steps) }
        ensures { result ≡ raised stack.now self }
    {
        let depth = self.depth - 1;
        Place {
            depth,
            frame: stack[depth],
            steps: self.steps - 1,
            ..self
        }
    }
}
