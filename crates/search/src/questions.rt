// The questions of a search behind 5 and 6.
ghost use Rattle.layout.specs.Headers.{numbers};
ghost use Rattle.std.specs.Prelude.{◌≡◌};
ghost use Rattle.meaning.specs.Refusal.{first_no};
ghost use Rattle.refusals.specs.Refusals.{answer_number};
ghost use Rattle.search.specs.Questions.{query_asked};

use layout::Header;
use layout::settings::READERS;
use refusals::Refusal;

const RADIUS: u32 = 64;

// 7, 10 and 11: the first that says no.
#[tactic(auto, unfolding(meaning::specs::Refusal::first_no, crate::specs::Questions::query_asked))]
pub fn ask_query(h: Header, reader: u32, radius: u32, sketch: &[u8]) -> Result<(), Refusal>
    ensures { answer_number result ≡ first_no (query_asked (numbers h) reader radius sketch.now) }
{
    if READERS <= reader {
        return Err(Refusal::OutOfRange);
    }
    if RADIUS < radius {
        return Err(Refusal::OutOfRange);
    }
    if sketch.len() != h.m {
        return Err(Refusal::BadLength);
    }
    if !sketch::symbols::in_range(h.b as u32, sketch) {
        return Err(Refusal::BadSymbol);
    }
    Ok(())
}
