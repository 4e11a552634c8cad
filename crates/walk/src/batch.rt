// The leaves of a walk in batches. A walk ends on any tables: each node that it reads draws on a budget, and each step on another.
ghost use Rattle.std.specs.Prelude.{◌≡◌, ◌<◌, ◌≤◌};
ghost use Rattle.descent.specs.Cursor.{AllInside};
ghost use Rattle.walk_steps.specs.Walks.{given_of};
ghost use Rattle.walk.specs.Walk.{walk_from};
ghost use Rattle.walk.specs.Waiting.{rest_of, Settled};
ghost use Rattle.walk.specs.Batch.{bare, from, Standing, Gives, Begins};

use descent::{Cursor, Descents};
use distances::Distances;
use layout::nodes::Kind;
use walk_steps::frame;
use walk_steps::frame::Frame;
use walk_steps::place::Place;
use walk_steps::turn::{Move, turn};
use walk_steps::walk::Walk;

// What is left of a walk. No Option of a batch: where it cannot go on, the leaves beside it are met all the same.
#[derive(Clone, Copy, Debug, PartialEq, Eq)]
pub enum Rest {
    // it goes on from a place
    More { place: Place },
    // it is over, with so many of the nodes left
    Done { nodes: u32 },
    // a link is not in order, or a budget did not last
    Broken,
}

// The next n leaves, each by the link to its first page, and what is left of the walk. Fixed memory inside a call, since a search takes
// no heap.
#[derive(Clone, Copy, Debug, PartialEq, Eq)]
pub struct Batch {
    pub links: [u32; 16],
    pub n: usize,
    pub rest: Rest,
}

// What is left of a walk at a place, when the descents of n leaves have left so much. Fewer than 16 wait at the end of a walk alone.
fn rest_of(left: Option<u32>, n: usize, place: Place) -> Rest
    ensures { result ≡ rest_of n place left }
{
    let Some(nodes) = left else {
        return Rest::Broken;
    };
    if n < 16 {
        return Rest::Done { nodes };
    }
    Rest::More {
        place: Place { nodes, ..place },
    }
}

// The batch of n leaves that wait at a place: their descents go on together.
fn settle(walk: &Walk<'_>, waiting: [Cursor; 16], n: usize, place: Place) -> Batch
    requires all_inside { AllInside walk.now.bytes.now waiting n }
    requires nodes_lt_cap { place.nodes < walk.now.cap }
    ensures { Settled (given_of walk.now) waiting n place result }
{
    let Descents { cursors, left } = descent::descend(
        walk.nodes,
        walk.cap,
        walk.bytes,
        waiting,
        n,
        place.nodes,
    );
    Batch {
        links: descent::leaves_of(cursors, n),
        n,
        rest: rest_of(left, n, place),
    }
}

// A batch without leaves.
fn bare(rest: Rest) -> Batch
    ensures { result ≡ bare rest }
{
    Batch {
        links: [0; 16],
        n: 0,
        rest,
    }
}

// At the root of a trie, with a budget of nodes to read behind it. The radius is not 0.
pub fn begin(walk: &Walk<'_>, root: usize, radius: u32, budget: u32) -> Batch
    requires { (root < walk.now.cap) × (budget < walk.now.cap) × (0 < radius) }
    ensures { Begins (given_of walk.now) (walk_from (given_of walk.now) root radius budget) result }
{
    let nodes = walk.nodes;
    match layout::nodes::kind_of(nodes, walk.cap, root) {
        Kind::Free => bare(Rest::Broken),
        Kind::Leaf(first) => {
            let mut links = [0u32; 16];
            links[0] = first;
            Batch {
                links,
                n: 1,
                rest: Rest::Done { nodes: budget },
            }
        }
        Kind::Inner => bare(Rest::More {
            place: Place {
                depth: 0,
                frame: frame::enter(nodes, walk.cap, root, radius),
                nodes: budget,
                steps: (layout::nodes::STEPS * (walk.cap + 1)) as u32,
            },
        }),
    }
}

// Goes on from a place until 16 leaves wait or the walk is over. The frames of the nodes above lie in the stack.
pub fn next(walk: &Walk<'_>, distances: &Distances, stack: &mut [Frame; 64], start: Place) -> Batch
    requires { Standing (given_of walk.now) stack.old start }
    ensures { Gives (given_of walk.now) stack.new (from (given_of walk.now) stack.old start) start.steps result }
{
    let mut place = start;
    let mut waiting = [descent::ended(0); 16];
    let mut n = 0;
    // No `for`: n counts leaves, not turns.
    while n < 16 {
        let Some(to) = turn(walk, distances, place) else {
            return bare(Rest::Broken);
        };
        match to {
            Move::Chain { at, link } => {
                place = place.on_chain(at, link);
            }
            Move::Past { link } => {
                place = place.on_link(link);
            }
            Move::Leaf { descent, link } => {
                place = place.on_link(link);
                waiting[n] = descent;
                n += 1;
            }
            Move::Down { node, radius, link } => {
                let above = place.on_link(link);
                stack[above.depth] = above.frame;
                place = above.lower(walk.nodes, walk.cap, node, radius);
            }
            Move::Up => {
                if place.depth == 0 {
                    return settle(walk, waiting, n, place);
                }
                place = place.raise(stack);
            }
        }
    }
    settle(walk, waiting, n, place)
}
