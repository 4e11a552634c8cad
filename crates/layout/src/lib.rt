// Where each thing stands in the lent tables (specs/), and the functions that read and write it; those on the settings table are
// the crate settings.
#![tactic(auto)]

pub mod lengths;
pub mod nodes;
pub mod pages;
pub mod settings;

ghost use Rattle.layout.specs.Limits.{HeaderLimits};

// The numbers of an opening as they are given, or as they stand in the settings table: b, m, q and the capacities.
#[derive(Clone, Copy)]
pub struct Numbers {
    pub b: usize,
    pub m: usize,
    pub q: usize,
    pub pages: usize,
    pub nodes: usize,
}

impl Numbers {
    ghost use Rattle.std.specs.Prelude.{◌≡◌, []};
    ghost use Rattle.meaning.specs.Ledger.{settings_given};
    ghost use Rattle.layout.specs.Header.{header_of};

    // In the order of an opening.
    pub fn new(b: u32, m: u32, q: u32, page_capacity: u32, node_capacity: u32) -> Numbers
        ensures { result ≡ header_of (settings_given b m q page_capacity node_capacity []) }
    {
        Numbers {
            b: b as usize,
            m: m as usize,
            q: q as usize,
            pages: page_capacity as usize,
            nodes: node_capacity as usize,
        }
    }
}

// What a call goes by: numbers that pass question 4. Five fields of its own and no `Numbers` in it: every crate above reads them, by one
// name each.
#[derive(Clone, Copy)]
pub struct Header {
    pub b: usize,
    pub m: usize,
    pub q: usize,
    pub pages: usize,
    pub nodes: usize,
    pub ghost limits: { HeaderLimits (record { b = b; m = m; q = q; pages = pages; nodes = nodes }) },
}

impl Header {
    ghost use Rattle.std.specs.Prelude.{◌≡◌};
    ghost use Rattle.layout.specs.Limits.{HeaderLimits};
    ghost use Rattle.layout.specs.Headers.{numbers};

    // Of numbers that have passed it.
    pub fn new(given: Numbers) -> Header
        requires { HeaderLimits given }
        ensures { numbers result ≡ given }
    {
        Header {
            b: given.b,
            m: given.m,
            q: given.q,
            pages: given.pages,
            nodes: given.nodes,
        }
    }
}

// Where one block's trie lies: the capacities, and where the links of its pages begin in the page table.
#[derive(Clone, Copy)]
pub struct Block {
    pub nodes: usize,
    pub pages: usize,
    pub base: usize,
}
