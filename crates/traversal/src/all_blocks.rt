// All walks of a search draw on one budget of nodes; each block may meet as many pages as the capacity.
ghost use Rattle.layout.specs.Headers.{numbers};
ghost use Rattle.std.specs.Prelude.{◌<◌};
ghost use Rattle.marks.specs.Marks.{Room};
ghost use Rattle.hits.specs.Trials.{tried};
ghost use Rattle.meeting.specs.Mets.{Tallied, Meeting};
ghost use Rattle.traversal.specs.Meets.{meet_block, meet_from, meet_blocks};

use crate::bytes::{Packed, pack};
use crate::quest::Quest;
use distances::Distances;
use meeting::{Tally, chains_of, meet};
use walk::batch::Rest;
use walk_steps::frame::Frame;
use walk_steps::walk::Walk;

// Where the walk of a block begins: the block, its radius, and what is left of the nodes, with the pages marked so far.
#[derive(Clone, Copy, Debug, PartialEq, Eq)]
pub struct Start {
    pub block: usize,
    pub radius: u32,
    pub tally: Tally,
}

// Walks a block's trie from its root, node j for block j, and meets the pages of its leaves, a batch at a time.
fn meet_block(
    quest: &Quest<'_>,
    distances: &Distances,
    map: &mut [u32],
    counts: &mut [u32; 65],
    start: Start,
) -> Option<Tally>
    requires room { Room map.old quest.now.words }
    requires block_lt_q { (start.block < quest.now.trial.probe.header.q) × (0 < start.radius) × (start.tally.left < quest.now.trial.probe.header.nodes) }
    requires tallied { Tallied (tried quest.now.trial) quest.now.words map.old counts.old start.tally.count }
    ensures { Meeting (tried quest.now.trial) quest.now.words (meet_block (numbers quest.now.trial.probe.header) quest.now.nodes.now quest.now.trial.pages.now quest.now.trial.query.now start.radius start.block start.tally.left) map.old map.new counts.new result }
{
    let h = quest.trial.probe.header;
    let j = start.block;
    let packed = pack(h, quest.trial.query, j);
    let bytes = packed.bytes;
    let n = packed.n;
    let walk = Walk {
        nodes: quest.nodes,
        cap: h.nodes,
        b: h.b as u32,
        bytes: &bytes[..n],
    };
    let base = layout::pages::next_at(h.pages, j);
    // fixed memory inside a call: a trie has at most 64 levels
    let mut stack = [Frame::NONE; 64];
    let mut tally = Tally {
        left: h.pages as u32,
        count: start.tally.count,
    };
    let mut batch = walk::batch::begin(&walk, j, start.radius, start.tally.left);
    // No `for`: the walk itself says when it is over.
    loop {
        let cs = chains_of(&batch.links, batch.n, base, 0);
        tally = meet(&quest.trial, distances, quest.words, map, counts, cs, tally)?;
        match batch.rest {
            Rest::More { place } => {
                batch = walk::batch::next(&walk, distances, &mut stack, place);
            }
            Rest::Done { nodes } => {
                // no `..tally`: it would stand for one part alone
                return Some(Tally {
                    left: nodes,
                    count: tally.count,
                });
            }
            Rest::Broken => return None,
        }
    }
}

// Meets the pages of the leaf in each trie that the query's own bytes lead to: the descents of all blocks go on together, then their chains.
fn meet_exact(
    quest: &Quest<'_>,
    distances: &Distances,
    map: &mut [u32],
    counts: &mut [u32; 65],
    start: Tally,
) -> Option<Tally>
    requires room { Room map.old quest.now.words }
    requires left_lt_nodes { start.left < quest.now.trial.probe.header.nodes }
    requires tallied { Tallied (tried quest.now.trial) quest.now.words map.old counts.old start.count }
    ensures { Meeting (tried quest.now.trial) quest.now.words (meet_from (numbers quest.now.trial.probe.header) quest.now.nodes.now quest.now.trial.pages.now quest.now.trial.query.now 0 quest.now.trial.probe.header.q 0 start.left) map.old map.new counts.new result }
{
    let h = quest.trial.probe.header;
    let ends = block_leaves::leaves(quest.nodes, h, quest.trial.query, start.left);
    let left = ends.left?;
    let firsts = ends.firsts;
    let each = chains_of(&firsts, h.q, layout::pages::next_at(h.pages, 0), h.pages);
    let most = Tally {
        left: (h.q * h.pages) as u32,
        count: start.count,
    };
    let met = meet(
        &quest.trial,
        distances,
        quest.words,
        map,
        counts,
        each,
        most,
    )?;
    // no `..met`: it would stand for one part alone
    Some(Tally {
        left,
        count: met.count,
    })
}

// Walks the trie of each block in turn, within a block radius that is not 0. What one leaves of the nodes is the next one's.
fn meet_each(
    quest: &Quest<'_>,
    distances: &Distances,
    map: &mut [u32],
    counts: &mut [u32; 65],
    radius: u32,
    first: Tally,
) -> Option<Tally>
    requires room { Room map.old quest.now.words }
    requires radius_nonzero { (0 < radius) × (first.left < quest.now.trial.probe.header.nodes) }
    requires tallied { Tallied (tried quest.now.trial) quest.now.words map.old counts.old first.count }
    ensures { Meeting (tried quest.now.trial) quest.now.words (meet_from (numbers quest.now.trial.probe.header) quest.now.nodes.now quest.now.trial.pages.now quest.now.trial.query.now radius quest.now.trial.probe.header.q 0 first.left) map.old map.new counts.new result }
{
    let mut tally = first;
    for j in 0..quest.trial.probe.header.q {
        let start = Start {
            block: j,
            radius,
            tally,
        };
        tally = meet_block(quest, distances, map, counts, start)?;
    }
    Some(tally)
}

// Walks the tries of all blocks, each within the block radius. One of 0 leaves one path in each. The budget is every node once, the
// roots counted first. No page is marked yet. None: a link was not in order, or a budget did not last.
pub fn meet_blocks(quest: &Quest<'_>, map: &mut [u32], counts: &mut [u32; 65]) -> Option<Tally>
    requires room { Room map.old quest.now.words }
    requires tallied { Tallied (tried quest.now.trial) quest.now.words map.old counts.old 0 }
    ensures { Meeting (tried quest.now.trial) quest.now.words (meet_blocks (numbers quest.now.trial.probe.header) quest.now.nodes.now quest.now.trial.pages.now quest.now.trial.query.now quest.now.trial.probe.radius) map.old map.new counts.new result }
{
    let h = quest.trial.probe.header;
    let q = h.q;
    let distances = Distances::new();
    let radius = quest.trial.probe.radius / (q as u32);
    let start = Tally {
        left: (h.nodes - q) as u32,
        count: 0,
    };
    if radius == 0 {
        return meet_exact(quest, &distances, map, counts, start);
    }
    meet_each(quest, &distances, map, counts, radius, start)
}
