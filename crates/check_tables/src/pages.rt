// The live pages, apart from the tries: each has a class below 64, symbols below 2^b and the signature of its row.
ghost use Rattle.std.specs.Prelude.{◌≡◌, ◌≤◌, ◌<◌, length};
ghost use Rattle.layout.specs.Headers.{given_by};
ghost use Rattle.layout.specs.Lengths.{pages_length, sketches_length};
ghost use Rattle.check_tables.specs.Pages.{page_fits, test_pages};

use layout::Header;
use layout::settings::CLASSES;
use signature::signature_of;
use sketch::symbols::in_range;

#[tactic(auto, unfolding(layout::specs::Lengths::sketches_length, crate::specs::Pages::page_fits))]
fn page_fits(pages: &[u32], sketches: &[u8], h: Header, p: usize) -> bool
    requires h_in_bounds { pages_length (given_by h) ≤ length pages.now }
    requires h_in_bounds_2 { sketches_length (given_by h) ≤ length sketches.now }
    requires p_lt_pages { p < h.pages }
    ensures { result ≡ page_fits (given_by h) pages.now sketches.now p }
{
    if !layout::pages::is_live(pages, p) {
        return true;
    }
    if CLASSES <= layout::pages::class_of(pages, p) {
        return false;
    }
    let b = h.b as u32;
    let row = layout::pages::row(sketches, h.m, p);
    if !in_range(b, row) {
        return false;
    }
    layout::pages::signature_word(pages, h.pages, p) == signature_of(b, row)
}

// How many pages are live, where all pass; none where one does not.
#[tactic(auto, unfolding(crate::specs::Pages::test_pages))]
pub fn test_pages(pages: &[u32], sketches: &[u8], h: Header) -> Option<u32>
    requires h_in_bounds { pages_length (given_by h) ≤ length pages.now }
    requires h_in_bounds_2 { sketches_length (given_by h) ≤ length sketches.now }
    ensures { result ≡ test_pages (given_by h) pages.now sketches.now }
{
    let mut live: u32 = 0;
    for p in 0..h.pages {
        if !page_fits(pages, sketches, h, p) {
            return None;
        }
        live += layout::pages::is_live(pages, p) as u32;
    }
    Some(live)
}
