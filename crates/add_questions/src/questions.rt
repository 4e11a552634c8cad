// Questions 5 to 11 of an add, and 15.
ghost use Rattle.layout.specs.Headers.{numbers_in};
ghost use Rattle.std.specs.Prelude.{◌≡◌};
ghost use Rattle.meaning.specs.Ledger.{add};
ghost use Rattle.lent.specs.Lists.{held};
ghost use Rattle.refusals.specs.Refusals.{numbered};
ghost use Rattle.entry.specs.Admission.{admission};

use layout::Header;
use layout::settings::CLASSES;
use lent::View;
use refusals::Refusal;

// The opening where none of them says no, else the first that does.
#[tactic(auto, unfolding(entry::specs::Admission::admission))]
pub fn admit(view: View<'_>, page: u32, class: u32, sketch: &[u8]) -> Result<Header, Refusal>
    ensures { numbers_in (numbered result) ≡ admission (held view.entry) (add page «class» sketch.now) }
{
    let h = entry::admit(view)?;
    if CLASSES <= class {
        return Err(Refusal::OutOfRange);
    }
    entry::ask_page(h.pages, view.pages, page, false)?;
    if sketch.len() != h.m {
        return Err(Refusal::BadLength);
    }
    if !sketch::symbols::in_range(h.b as u32, sketch) {
        return Err(Refusal::BadSymbol);
    }
    if sketch::symbols::blank(sketch) {
        return Err(Refusal::Blank);
    }
    Ok(h)
}
