// Check: is the store sound?
#![tactic(auto)]

ghost use Rattle.std.specs.Prelude.{◌≡◌, ◌≤◌, length};
ghost use Rattle.meaning.specs.Ledger.{check, reading};
ghost use Rattle.layout.specs.Headers.{given_by, numbers};
ghost use Rattle.layout.specs.Tables.{Lent};
ghost use Rattle.lent.specs.Lists.{held_with};
ghost use Rattle.refusals.specs.Refusals.{answer_number, says_yes};
ghost use Rattle.check_tries.specs.Windows.{passed};
ghost use Rattle.check_store.specs.Store.{test_store};
ghost use Rattle.promises.specs.Relation.{with_verdict, Promised};

use check_tables::{free, pages};
use check_tries::windows;
use layout::Header;
use lent::View;
use refusals::Refusal;

// The pages, the free chain and the tries, with the first free link. The map is for marks. `Lent` and the map's size are clauses, as in
// check_tries.
#[tactic(auto, unfolding(layout::specs::Lengths::nodes_length, crate::specs::Store::test_store))]
fn test_store(view: View<'_>, map: &mut [u32], h: Header, free: u32) -> bool
    requires lent { Lent (numbers h) view.nodes.now view.pages.now view.sketches.now }
    requires map_len_bound { length map.old ≤ 2048 }
    ensures { passed map.new result ≡ test_store (given_by h) view.entry.nodes.now view.entry.pages.now view.entry.sketches.now free (length map.old) map.old }
{
    let Some(live) = pages::test_pages(view.pages, view.sketches, h) else {
        return false;
    };
    let Some(left) = free::test_free(view.nodes, h.nodes, free) else {
        return false;
    };
    windows::test_windows(view, map, h, left, live)
}

// Past 6 the answer is yes exactly where the store is sound, and the needed part of the working table is left zero.
pub fn check(view: View<'_>, working: &mut [u32]) -> Result<bool, Refusal>
    ensures { Promised (reading check) (held_with view.entry working.old) (with_verdict (answer_number result) (says_yes result)) (held_with view.entry working.new) }
{
    let h = entry::enter(view, working)?;
    let free = settings::free_link(view.settings);
    let words = layout::lengths::map_words(h);
    let sound = test_store(view, &mut working[..words], h, free);
    let current = rights::current::all_current(view.settings);
    let needed = layout::lengths::working_length(h);
    words::zero_run(working, 0, needed);
    Ok(sound & current)
}
