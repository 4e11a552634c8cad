// How long the tables of an index must be, for those who lend them.
ghost use Rattle.std.specs.Prelude.{◌≡◌, []};
ghost use Rattle.layout.specs.Header.{bare};
ghost use Rattle.fresh_tables.specs.Lengths.{told, lengths_of};

use layout::{Header, Numbers, lengths};
use refusals::Refusal;

// The lengths in words, of the sketch table in bytes.
#[derive(Clone, Copy)]
pub struct Lengths {
    pub settings: u32,
    pub nodes: u32,
    pub pages: u32,
    pub sketches: u32,
    pub working: u32,
}

// The lengths; or 4. It is asked and the header made as in `open`: one function for both would have a contract as long as these lines.
#[tactic(auto, unfolding(crate::specs::Lengths::lengths_of))]
pub fn needed(given: Numbers) -> Result<Lengths, Refusal>
    ensures { told result ≡ lengths_of (bare given) }
{
    if !settings::limits(given, layout::settings::LEVELS) {
        return Err(Refusal::BadSettings);
    }
    let h = Header::new(given);
    Ok(Lengths {
        settings: layout::settings::LENGTH as u32,
        nodes: lengths::nodes_length(h) as u32,
        pages: lengths::pages_length(h) as u32,
        sketches: lengths::sketches_length(h) as u32,
        working: lengths::working_length(h) as u32,
    })
}
