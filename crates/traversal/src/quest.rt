// What a search goes by.
ghost use Rattle.std.specs.Prelude.{◌≡◌, ◌*◌, ◌≤◌, true, length};
ghost use Rattle.meaning.specs.Sketch.{in_range};
ghost use Rattle.layout.specs.Headers.{given_by};
ghost use Rattle.layout.specs.Lengths.{nodes_length};

use hits::trial::Trial;

// The node table that it walks, and what the pages met are tested by; its map of marks has so many words.
#[derive(Clone, Copy, Drop)]
pub struct Quest<'a> {
    pub trial: Trial<'a>,
    pub nodes: &'a [u32],
    pub words: usize,
    pub ghost nodes_long: { nodes_length (given_by trial.probe.header) ≤ length nodes.now },
    pub ghost range: { in_range trial.probe.header.b trial.query.now ≡ true },
    pub ghost bits: { trial.probe.header.pages ≤ words * 32 },
}
