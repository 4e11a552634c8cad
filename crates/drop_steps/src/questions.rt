// Questions 5, 6, 8 and 9 of a drop.
ghost use Rattle.layout.specs.Headers.{numbers_in};
ghost use Rattle.std.specs.Prelude.{◌≡◌};
ghost use Rattle.meaning.specs.Ledger.{drop};
ghost use Rattle.lent.specs.Lists.{held};
ghost use Rattle.refusals.specs.Refusals.{numbered};
ghost use Rattle.entry.specs.Admission.{admission};

use layout::Header;
use lent::View;
use refusals::Refusal;

// The opening where none of them says no, else the first that does.
#[tactic(auto, unfolding(entry::specs::Admission::admission))]
pub fn admit(view: View<'_>, page: u32) -> Result<Header, Refusal>
    ensures { numbers_in (numbered result) ≡ admission (held view.entry) (drop page) }
{
    let h = entry::admit(view)?;
    entry::ask_page(h.pages, view.pages, page, true)?;
    Ok(h)
}
