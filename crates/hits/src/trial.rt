// What the pages of a search are tested by.
ghost use Rattle.hits.specs.Hit.{Fitting};
ghost use Rattle.hits.specs.Probes.{Prepared, test_by};

use crate::Probe;

// The tables of pages, the query, and what is worked out of it once.
#[derive(Clone, Copy, Drop)]
pub struct Trial<'a> {
    pub pages: &'a [u32],
    pub sketches: &'a [u8],
    pub query: &'a [u8],
    pub probe: Probe,
    pub ghost fitting: { Fitting (test_by pages.now sketches.now query.now probe) },
    pub ghost prepared: { Prepared query.now probe },
}
