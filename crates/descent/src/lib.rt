// Exact descents: the leaf of a trie that the bytes of a block lead to. The descents of several blocks go on in turn, a step each:
// none waits for another, so the memory can answer for all of them at once.
#![tactic(auto)]

ghost use Rattle.std.specs.Prelude.{◌≡◌, ◌*◌, ◌<◌, ◌≤◌, length};
ghost use Rattle.descent.specs.Cursor.{Fits, Inside, AllInside, ended, arrive, advance, going, Descended, leaf_of, AllLeaves};

use children::cursor::{Child, first_for, look};
use layout::nodes::{Kind, kind_of};

// Where a descent stands: ahead of the child at `link`, which must have the byte at `at`; the block's last byte is at `last`.
// At link 0 it has ended: `first` is the link of the leaf's first page, or 0 where no leaf is reached. Four numbers and no enum: `arrive`
// and `leaf_of` of the promises have it so, and each round asks each descent for its link alone.
#[derive(Clone, Copy, Debug, PartialEq, Eq)]
pub struct Cursor {
    pub link: u32,
    pub at: u32,
    pub last: u32,
    pub first: u32,
}

// Descents that have ended, and what they leave of the nodes that may be read: none where the budget was spent. Arrays of 16 with a
// number of them beside: fixed memory inside a call, since a search takes no heap.
#[derive(Clone, Copy, Debug, PartialEq, Eq)]
pub struct Descents {
    pub cursors: [Cursor; 16],
    pub left: Option<u32>,
}

// A link past every page: what a descent gives that meets a link out of order. A number, as any leaf's: the chain that begins there is
// found broken where it is met.
const OUTSIDE: u32 = 65536;

// A descent that has ended, at a leaf by the link of its first page.
pub fn ended(first: u32) -> Cursor
    ensures { result ≡ ended first }
{
    Cursor {
        link: 0,
        at: 0,
        last: 0,
        first,
    }
}

// A descent that has come to node x, with the bytes from `at` to `last` to go.
pub fn arrive(nodes: &[u32], cap: usize, bytes: &[u8], x: usize, at: u32, last: u32) -> Cursor
    requires fits { Fits nodes.now cap bytes.now }
    requires x_lt_cap { (x < cap) × (last < length bytes.now) }
    ensures { result ≡ arrive nodes.now cap bytes.now x at last }
{
    match kind_of(nodes, cap, x) {
        Kind::Free => ended(OUTSIDE),
        Kind::Leaf(first) => ended(first),
        Kind::Inner => {
            if last < at {
                return ended(OUTSIDE);
            }
            let byte = bytes[at as usize];
            Cursor {
                link: first_for(nodes, cap, x, byte),
                at,
                last,
                first: 0,
            }
        }
    }
}

// The next step of a descent: along the chain, whose bytes rise, or down. One that has ended stays.
fn advance(nodes: &[u32], cap: usize, bytes: &[u8], c: Cursor) -> Cursor
    requires fits { Fits nodes.now cap bytes.now }
    requires inside { Inside bytes.now c }
    ensures { result ≡ advance nodes.now cap bytes.now c }
{
    if c.link == 0 {
        return c;
    }
    match look(nodes, cap, c.link) {
        None => ended(OUTSIDE),
        Some(Child { node, byte, link }) => {
            let y = bytes[c.at as usize] as u32;
            if byte < y {
                return Cursor {
                    link,
                    first: 0,
                    ..c
                };
            }
            if y < byte {
                return ended(0);
            }
            arrive(nodes, cap, bytes, node as usize, c.at + 1, c.last)
        }
    }
}

// How many of the first n descents have not ended?
#[tactic(auto, unfolding(crate::specs::Cursor::going))]
fn going(cursors: [Cursor; 16], n: usize) -> u32
    requires { n ≤ 16 }
    ensures { result ≡ going cursors n }
{
    let mut count = 0;
    for i in 0..n {
        count += (cursors[i].link != 0) as u32;
    }
    count
}

// Lets the first n descents go on to their ends. Each step of each reads a node, and draws on the budget.
pub fn descend(
    nodes: &[u32],
    cap: usize,
    bytes: &[u8],
    start: [Cursor; 16],
    n: usize,
    budget: u32,
) -> Descents
    requires fits { Fits nodes.now cap bytes.now }
    requires all_inside { AllInside bytes.now start n }
    requires budget_lt_cap { budget < cap }
    ensures { Descended nodes.now cap bytes.now start n budget result }
{
    let mut cursors = start;
    let mut left = budget;
    let mut more = going(start, n);
    // No `for`: there are as many rounds as the longest descent has steps.
    while more > 0 {
        if left < more {
            return Descents {
                cursors,
                left: None,
            };
        }
        left -= more;
        more = 0;
        for j in 0..n {
            let c = advance(nodes, cap, bytes, cursors[j]);
            cursors[j] = c;
            more += (c.link != 0) as u32;
        }
    }
    Descents {
        cursors,
        left: Some(left),
    }
}

// The link of the first page of the leaf that a descent led to, 0 where there is none, and one past every page where it did not end.
#[tactic(auto, unfolding(crate::specs::Cursor::leaf_of))]
pub fn leaf_of(c: Cursor) -> u32
    ensures { result ≡ leaf_of c }
{
    if c.link != 0 {
        return OUTSIDE;
    }
    c.first
}

// The first pages of the leaves that n descents led to, in an array of N.
pub fn leaves_of<const N: usize>(cursors: [Cursor; 16], n: usize) -> [u32; N]
    requires { (n ≤ 16) × (n ≤ N) }
    ensures { AllLeaves N cursors n result }
{
    let mut links = [0u32; N];
    for i in 0..n {
        links[i] = leaf_of(cursors[i]);
    }
    links
}
