// The call that drops a page.
ghost use Rattle.std.specs.Prelude.{◌≡◌};
ghost use Rattle.lent.specs.Lists.{lists, SameTables};
ghost use Rattle.promises.specs.Store.{outcome, DropPromise};
ghost use Rattle.refusals.specs.Refusals.{answer_number};
ghost use Rattle.drop_laws.specs.After.{drop_page};

use drop_steps::questions::admit;
use drop_steps::removal::remove_all;
use lent::Index;
use refusals::Refusal;

// Takes the page out of each block's trie and strikes it out; or the first "no".
pub fn drop_page(index: &mut Index<'_>, sketches: &[u8], page: u32) -> Result<(), Refusal>
    ensures same { SameTables index.old index.new }
    ensures drop_promise { DropPromise (lists index.old sketches.now) page (answer_number result) (lists index.new sketches.now) }
    ensures model { outcome (answer_number result) (lists index.new sketches.now) ≡ drop_page (lists index.old sketches.now) page }
{
    let h = admit(index.view(sketches), page)?;
    let settings = &mut *index.settings;
    let nodes = &mut *index.nodes;
    let pages = &mut *index.pages;
    let free = settings::free_link(settings);
    let p = page as usize;
    let link = remove_all(nodes, pages, sketches, h, p, free).ok_or(Refusal::Unsound)?;
    settings::set_free_link(settings, link);
    layout::pages::strike_page(pages, p);
    Ok(())
}
