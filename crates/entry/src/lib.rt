// Questions 5 and 6: does the settings table show an opening, and is each table behind it long enough? 8 and 9: the page.
#![tactic(auto)]

ghost use Rattle.std.specs.Prelude.{◌≡◌, ◌&&◌, ◌≤◌, leb, length};
ghost use Rattle.layout.specs.Headers.{given_by, numbers_in};
ghost use Rattle.layout.specs.Lengths.{nodes_length, pages_length, sketches_length, working_length};
ghost use Rattle.meaning.specs.Refusal.{first_no};
ghost use Rattle.lent.specs.Lists.{held, held_with};
ghost use Rattle.refusals.specs.Refusals.{answer_number, numbered};
ghost use Rattle.entry.specs.Entry.{store_entry, entry, page_asked};

use layout::Header;
use lent::View;
use refusals::Refusal;

// A test for each table: one for all would be handed the length, and then say nothing of a table.
#[tactic(auto, unfolding(layout::specs::Lengths::nodes_length))]
pub fn long_nodes(h: Header, nodes: &[u32]) -> bool
    ensures { result ≡ leb (nodes_length (given_by h)) (length nodes.now) }
{
    layout::lengths::nodes_length(h) <= nodes.len()
}

#[tactic(auto, unfolding(layout::specs::Lengths::pages_length, layout::specs::Lengths::sketches_length))]
pub fn long_pages(h: Header, pages: &[u32], sketches: &[u8]) -> bool
    ensures { result ≡ leb (pages_length (given_by h)) (length pages.now) && leb (sketches_length (given_by h)) (length sketches.now) }
{
    (layout::lengths::pages_length(h) <= pages.len())
        & (layout::lengths::sketches_length(h) <= sketches.len())
}

#[tactic(auto, unfolding(layout::specs::Lengths::working_length))]
pub fn long_working(h: Header, working: &[u32]) -> bool
    ensures { result ≡ leb (working_length (given_by h)) (length working.now) }
{
    layout::lengths::working_length(h) <= working.len()
}

// The store: the nodes, the pages and their sketches.
#[tactic(auto, unfolding(layout::specs::Lengths::nodes_length, layout::specs::Lengths::pages_length, layout::specs::Lengths::sketches_length))]
pub fn long_store(h: Header, view: View<'_>) -> bool
    ensures { result ≡ leb (nodes_length (given_by h)) (length view.entry.nodes.now) && (leb (pages_length (given_by h)) (length view.entry.pages.now) && leb (sketches_length (given_by h)) (length view.entry.sketches.now)) }
{
    long_nodes(h, view.nodes) & long_pages(h, view.pages, view.sketches)
}

// 5 and 6 of a call that takes the store: the opening.
#[tactic(auto, unfolding(crate::specs::Entry::store_entry))]
pub fn admit(view: View<'_>) -> Result<Header, Refusal>
    ensures { numbers_in (numbered result) ≡ store_entry (held view.entry) }
{
    let h = settings::opening(view.settings)?;
    if !long_store(h, view) {
        return Err(Refusal::NoOpening);
    }
    Ok(h)
}

// 8 and 9: is the page below the capacity, and live where it is to be?
#[tactic(auto, unfolding(meaning::specs::Refusal::first_no, crate::specs::Entry::page_asked))]
pub fn ask_page(capacity: usize, pages: &[u32], page: u32, live: bool) -> Result<(), Refusal>
    requires { capacity ≤ length pages.now }
    ensures { answer_number result ≡ first_no (page_asked capacity pages.now page live) }
{
    if capacity <= page as usize {
        return Err(Refusal::NoSuchPage);
    }
    if layout::pages::is_live(pages, page as usize) != live {
        return Err(Refusal::PageState);
    }
    Ok(())
}

// 5 and 6 of a call that takes all the tables: the opening. Beside `admit`: other calls are lent no working table.
#[tactic(auto, unfolding(crate::specs::Entry::entry))]
pub fn enter(view: View<'_>, working: &[u32]) -> Result<Header, Refusal>
    ensures { numbers_in (numbered result) ≡ entry (held_with view.entry working.now) }
{
    let h = admit(view)?;
    if !long_working(h, working) {
        return Err(Refusal::NoOpening);
    }
    Ok(h)
}
