// Add: a page with its class and sketch. What it promises is in crates/promises/specs/Store.antt.
ghost use Rattle.layout.specs.Headers.{numbers};
ghost use Rattle.layout.specs.Pages.{with_row};
ghost use Rattle.std.specs.Prelude.{◌≡◌, ◌+◌, ◌*◌, ◌≤◌, length, Ok};
ghost use Rattle.meaning.specs.Ledger.{add};
ghost use Rattle.lent.specs.Lists.{lists, SameTables};
ghost use Rattle.promises.specs.Store.{outcome, AddPromise};
ghost use Rattle.refusals.specs.Refusals.{answer_number};
ghost use Rattle.entry.specs.Admission.{admission};
ghost use Rattle.add_laws.specs.Add.{put_page, place_page, add_page};

use crate::insert::insert_all;
use add_questions::questions::admit;
use add_questions::room::room;
use layout::Header;
use lent::Index;
use refusals::Refusal;
use signature::signature_of;
use trie::Stop;

// The sketch written as the row of page p. Not by `layout::pages::write_row`, which copies a slice: for that the archive for C would need
// `memmove` from outside.
#[tactic(auto, unfolding(layout::specs::Pages::with_row))]
fn write_row(sketches: &mut [u8], m: usize, p: usize, x: &[u8])
    requires m_in_bounds { p * m + m ≤ length sketches.old }
    requires x_len { length x.now ≡ m }
    ensures { sketches.new ≡ with_row m sketches.old p x.now }
{
    let start = p * m;
    for i in 0..m {
        sketches[start + i] = x[i];
    }
}

// The page's row, its leaf in each trie, its page word and its signature. 14 where an insertion stops on unsound tables.
fn put_page(
    index: &mut Index<'_>,
    sketches: &mut [u8],
    h: Header,
    p: usize,
    class: u32,
    sketch: &[u8],
) -> Result<(), Refusal>
    requires { admission (lists index.old sketches.old) (add p «class» sketch.now) ≡ Ok (numbers h) }
    ensures same { SameTables index.old index.new }
    ensures model { outcome (answer_number result) (lists index.new sketches.new) ≡ put_page (lists index.old sketches.old) p «class» sketch.now }
{
    let settings = &mut *index.settings;
    let nodes = &mut *index.nodes;
    let pages = &mut *index.pages;
    write_row(sketches, h.m, p, sketch);
    let free = settings::free_link(settings);
    let thresholds = settings::thresholds(settings);
    let link = insert_all(nodes, pages, sketches, thresholds, h, sketch, p, free).ok_or(
        Refusal::Unsound,
    )?;
    settings::set_free_link(settings, link);
    let signature = signature_of(h.b as u32, sketch);
    layout::pages::write_page(pages, h.pages, p, class, signature);
    Ok(())
}

// Past 15: question 12, before anything is written. No `From`: here a full table is 12, while an insertion that stops past this
// question is 14 in either case.
fn place_page(
    index: &mut Index<'_>,
    sketches: &mut [u8],
    h: Header,
    p: usize,
    class: u32,
    sketch: &[u8],
) -> Result<(), Refusal>
    requires { admission (lists index.old sketches.old) (add p «class» sketch.now) ≡ Ok (numbers h) }
    ensures same { SameTables index.old index.new }
    ensures model { outcome (answer_number result) (lists index.new sketches.new) ≡ place_page (lists index.old sketches.old) p «class» sketch.now }
{
    let view = index.view(sketches);
    let free = settings::free_link(view.settings);
    let thresholds = settings::thresholds(view.settings);
    match room(view, thresholds, h, sketch, free) {
        Ok(()) => put_page(index, sketches, h, p, class, sketch),
        Err(Stop::Full) => Err(Refusal::NoRoom),
        Err(Stop::Broken) => Err(Refusal::Unsound),
    }
}

// The page added; or the first question that says no.
pub fn add(
    index: &mut Index<'_>,
    sketches: &mut [u8],
    page: u32,
    class: u32,
    sketch: &[u8],
) -> Result<(), Refusal>
    ensures same { SameTables index.old index.new }
    ensures add_promise { AddPromise (lists index.old sketches.old) page «class» sketch.now (answer_number result) (lists index.new sketches.new) }
    ensures model { outcome (answer_number result) (lists index.new sketches.new) ≡ add_page (lists index.old sketches.old) page «class» sketch.now }
{
    let h = admit(index.view(sketches), page, class, sketch)?;
    place_page(index, sketches, h, page as usize, class, sketch)
}
