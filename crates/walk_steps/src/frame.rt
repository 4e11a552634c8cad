// The children of an inner node that a walk has still to go through.
ghost use Rattle.std.specs.Prelude.{◌≡◌, ◌<◌};
ghost use Rattle.layout.specs.Tables.{NodeTable};
ghost use Rattle.walk_steps.specs.Turn.{entered, at_chain};

use children::cursor::Cursor;

// The children at a cursor, each to be within the radius.
#[derive(Clone, Copy, Debug, PartialEq, Eq)]
pub struct Frame {
    pub cursor: Cursor,
    pub radius: u32,
}

impl Frame {
    // What a stack holds where no frame was put.
    pub const NONE: Frame = Frame {
        cursor: Cursor {
            at: 0,
            last: 0,
            link: 0,
        },
        radius: 0,
    };

    // From a link on, in the chain of the node whose head is at `at`.
    pub fn at_chain(self, at: u32, link: u32) -> Frame
        ensures { result ≡ at_chain self at link }
    {
        Frame {
            cursor: Cursor {
                at,
                link,
                ..self.cursor
            },
            ..self
        }
    }
}

// All children of node x.
pub fn enter(nodes: &[u32], cap: usize, x: usize, radius: u32) -> Frame
    requires node_table { NodeTable cap nodes.now }
    requires x_lt_cap { x < cap }
    ensures { result ≡ entered nodes.now cap x radius }
{
    Frame {
        cursor: children::cursor::all(nodes, cap, x),
        radius,
    }
}
