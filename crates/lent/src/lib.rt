// The tables of an index as one value, lent to a call: those of words that a change writes, and all of them for a reading.
#![tactic(auto)]

ghost use Rattle.std.specs.Prelude.{◌≡◌};
ghost use Rattle.lent.specs.Lists.{lists, held};

// The settings table, the node table and the page table.
#[derive(Drop)]
pub struct Index<'a> {
    pub settings: &'a mut [u32],
    pub nodes: &'a mut [u32],
    pub pages: &'a mut [u32],
}

// All tables but the working table, to be read.
#[derive(Clone, Copy, Drop)]
pub struct View<'a> {
    pub settings: &'a [u32],
    pub nodes: &'a [u32],
    pub pages: &'a [u32],
    pub sketches: &'a [u8],
}

// The two lists of a search: page numbers, and at the same place how far each page is.
#[derive(Drop)]
pub struct Lists<'a> {
    pub pages: &'a mut [u16],
    pub distances: &'a mut [u16],
}

impl Index<'_> {
    // The tables and the sketch table, to be read.
    pub fn view<'a>(&'a self, sketches: &'a [u8]) -> View<'a>
        ensures { held result ≡ lists self.now sketches.now }
    {
        View {
            settings: &*self.settings,
            nodes: &*self.nodes,
            pages: &*self.pages,
            sketches,
        }
    }
}
