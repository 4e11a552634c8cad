// Show, for a reader: the page's row of the sketch table itself, or the question that refuses it.
// The tables come one by one: the call for C lends no node table, so no `View` can be made.
ghost use Rattle.std.specs.Prelude.{◌≡◌, [], ◌+◌, length};
ghost use Rattle.meaning.specs.Ledger.{show, reading};
ghost use Rattle.promises.specs.Tables.{show_tables};
ghost use Rattle.promises.specs.Answers.{number};
ghost use Rattle.promises.specs.Readings.{start_shown, row_shown};
ghost use Rattle.promises.specs.Relation.{OnShow};
ghost use Rattle.show_page.specs.Show.{found, place_of};
ghost use Rattle.refusals.specs.Refusals.{answer_number};

use layout::settings::READERS;
use refusals::Refusal;

// Where a row stands in the sketch table.
#[derive(Clone, Copy)]
pub struct Row {
    pub start: u32,
    pub length: u32,
}

// Where the page's row stands.
#[tactic(auto, unfolding(crate::specs::Show::place_of))]
pub fn find_row(
    settings: &[u32],
    pages: &[u32],
    sketches: &[u8],
    reader: u32,
    page: u32,
) -> Result<Row, Refusal>
    ensures { found result ≡ place_of (show_tables settings.now pages.now sketches.now) reader page }
{
    let h = settings::opening(settings)?;
    if !entry::long_pages(h, pages, sketches) {
        return Err(Refusal::NoOpening);
    }
    if READERS <= reader {
        return Err(Refusal::OutOfRange);
    }
    let cap = h.pages;
    let p = page as usize;
    if cap <= p {
        return Err(Refusal::NoSuchPage);
    }
    if !layout::pages::is_live(pages, p) {
        return Err(Refusal::PageState); // no such page
    }
    let class = layout::pages::class_of(pages, p);
    if !rights::is_open_to(settings, reader as usize, class) {
        return Err(Refusal::PageState); // closed to the reader
    }
    let length = h.m as u32;
    Ok(Row {
        start: page * length,
        length,
    })
}

// Is the row shown?
#[tactic(auto, unfolding(crate::specs::Show::place_of, promises::specs::Readings::row_shown))]
pub fn show_number(
    settings: &[u32],
    pages: &[u32],
    sketches: &[u8],
    reader: u32,
    page: u32,
) -> Result<(), Refusal>
    ensures { OnShow reader page (show_tables settings.now pages.now sketches.now) (answer_number result) (row_shown (show_tables settings.now pages.now sketches.now) reader page) }
{
    find_row(settings, pages, sketches, reader, page)?;
    Ok(())
}

// The row itself, a part of the lent table, or an empty part where it is refused: `show_number` tells why. No Result: an answer that is
// always a part is what the index offers.
#[tactic(auto, unfolding(crate::specs::Show::place_of, promises::specs::Answers::number, promises::specs::Readings::start_shown))]
pub fn show<'a>(
    settings: &[u32],
    pages: &[u32],
    sketches: &'a [u8],
    reader: u32,
    page: u32,
) -> &'a [u8]
    ensures on_show { OnShow reader page (show_tables settings.now pages.now sketches.now) (number (show_tables settings.now pages.now sketches.now) [] (reading (show reader page))) result.now }
    ensures ref_ptr_value { result.ref_ptr.0 ≡ sketches.entry.ref_ptr.0 }
    ensures ref_ptr_value_2 { result.ref_ptr.1 ≡ sketches.entry.ref_ptr.1 + start_shown (show_tables settings.now pages.now sketches.now) reader page }
{
    match find_row(settings, pages, sketches, reader, page) {
        Ok(row) => {
            let start = row.start as usize;
            let end = start + (row.length as usize);
            &sketches[start..end]
        }
        Err(_) => &sketches[..0],
    }
}
