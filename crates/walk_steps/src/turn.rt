// A turn of a walk: one step in the node where it stands, and where that leads.
ghost use Rattle.std.specs.Prelude.{◌≡◌, ◌<◌, length};
ghost use Rattle.layout.specs.Nodes.{node_words};
ghost use Rattle.walk_steps.specs.Walks.{given_of};
ghost use Rattle.walk_steps.specs.Turn.{reached};
ghost use Rattle.walk_steps.specs.Place.{turned};

use crate::place::Place;
use crate::walk::Walk;
use children::cursor::Next;
use descent::Cursor;
use distances::Distances;
use layout::nodes::Kind;

// Where a step leads; `link` is the one to go on from.
#[derive(Clone, Copy, Debug, PartialEq, Eq)]
pub enum Move {
    // to the next chain, whose head is at `at`
    Chain { at: u32, link: u32 },
    // past a child that is too far
    Past { link: u32 },
    // past a child to a leaf: a descent leads there, or has ended there
    Leaf { descent: Cursor, link: u32 },
    // to an inner node, and the radius left below it
    Down { node: u32, radius: u32, link: u32 },
    // back to the node above
    Up,
}

// To a child x that is within the radius, when so much of it is left: at a level of the query's bytes, and with a link after it.
// With none left the query's own bytes lead on. None where a link is not in order.
fn reach(walk: &Walk<'_>, x: usize, level: usize, radius: u32, link: u32) -> Option<Move>
    requires { (x < walk.now.cap) × (level < 65) }
    ensures { result ≡ reached (given_of walk.now) x level radius link }
{
    let nodes = walk.nodes;
    let bytes = walk.bytes;
    match layout::nodes::kind_of(nodes, walk.cap, x) {
        Kind::Free => None,
        Kind::Leaf(first) => Some(Move::Leaf {
            descent: descent::ended(first),
            link,
        }),
        Kind::Inner => {
            if radius == 0 {
                let last = (bytes.len() - 1) as u32;
                let c = descent::arrive(nodes, walk.cap, bytes, x, level as u32, last);
                return Some(Move::Leaf { descent: c, link });
            }
            if level >= bytes.len() {
                return None;
            }
            Some(Move::Down {
                node: x as u32,
                radius,
                link,
            })
        }
    }
}

// Takes one step for the query's bytes. None where a link is not in order, or no node or step is left. No `From` of the next child's step:
// a match for its one use.
#[tactic(auto, unfolding(crate::specs::Place::turned))]
pub fn turn(walk: &Walk<'_>, distances: &Distances, place: Place) -> Option<Move>
    requires { (place.depth < length walk.now.bytes.now) × (place.frame.cursor.last < node_words walk.now.cap) }
    ensures { result ≡ turned (given_of walk.now) place }
{
    if place.steps == 0 {
        return None;
    }
    let frame = place.frame;
    let next = children::cursor::step(walk.nodes, walk.cap, frame.cursor)?;
    match next {
        Next::Chain { at, link } => Some(Move::Chain { at, link }),
        Next::End => Some(Move::Up),
        Next::Child { node, byte, link } => {
            if place.nodes == 0 {
                return None;
            }
            let depth = place.depth;
            let v = (byte % 256) as u8 ^ walk.bytes[depth];
            let d = distances.byte_distance(walk.b, v);
            if frame.radius < d {
                return Some(Move::Past { link });
            }
            reach(walk, node as usize, depth + 1, frame.radius - d, link)
        }
    }
}
