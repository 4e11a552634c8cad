// The words of the page table, and the rows of the sketch table.
// The pages of a leaf are linked by numbers in one slice of words: the table is lent, and an index allocates nothing.
// That a slice is long enough for its pages is a clause: pages lie in lent tables of 32-bit words, by rule.
ghost use Rattle.std.specs.Prelude.{◌≡◌, ◌+◌, ◌*◌, ◌≤◌, ◌<◌, length, get_or};
ghost use Rattle.layout.specs.Pages.{most_pages, is_live, class_of, signature_at, next_at, row_of, with_page, without_page, with_row};

// The page word of page p: 0 for a page that is not live, else 1 + its class.
pub fn page_word(pages: &[u32], p: usize) -> u32
    requires { p < length pages.now }
    ensures { result ≡ get_or pages.now p 0 }
{
    pages[p]
}

#[tactic(auto, unfolding(crate::specs::Pages::is_live))]
pub fn is_live(pages: &[u32], p: usize) -> bool
    requires { p < length pages.now }
    ensures { result ≡ is_live pages.now p }
{
    page_word(pages, p) > 0
}

// The class of page p; 0 of a page that is not live. No Option: `class_of` of the promises on a show and a search has 0 too.
#[tactic(auto, unfolding(crate::specs::Pages::class_of))]
pub fn class_of(pages: &[u32], p: usize) -> u32
    requires { p < length pages.now }
    ensures { result ≡ class_of pages.now p }
{
    page_word(pages, p).saturating_sub(1)
}

// The signature that is stored for page p, in a table of cap pages.
#[tactic(auto, unfolding(crate::specs::Pages::signature_at))]
pub fn signature_word(pages: &[u32], cap: usize, p: usize) -> u32
    requires { cap + p < length pages.now }
    ensures { result ≡ signature_at pages.now cap p }
{
    pages[cap + p]
}

// Where the links of block j begin.
pub fn next_at(cap: usize, j: usize) -> usize
    requires { (cap ≤ most_pages) × (j < 8) }
    ensures { result ≡ next_at cap j }
{
    (2 + j) * cap
}

// The row of page p: a part of the sketch table itself.
#[tactic(auto, unfolding(crate::specs::Pages::row_of))]
pub fn row(sketches: &[u8], m: usize, p: usize) -> &[u8]
    requires { p * m + m ≤ length sketches.now }
    ensures result_value { result.now ≡ row_of m sketches.now p }
    ensures ref_ptr_value { result.ref_ptr.0 ≡ sketches.entry.ref_ptr.0 }
    ensures ref_ptr_value_2 { result.ref_ptr.1 ≡ sketches.entry.ref_ptr.1 + p * m }
{
    let start = p * m;
    let end = start + m;
    &sketches[start..end]
}

// Page p is live, in this class, and its row has this signature.
#[tactic(auto, unfolding(crate::specs::Pages::with_page))]
pub fn write_page(pages: &mut [u32], cap: usize, p: usize, class: u32, signature: u32)
    requires p_lt_cap { (p < cap) × (cap + p < length pages.old) }
    requires class_bound { class < 64 }
    ensures { pages.new ≡ with_page cap pages.old p class signature }
{
    let signature_at = cap + p;
    pages[p] = 1 + class;
    pages[signature_at] = signature;
}

// Page p is not live.
#[tactic(auto, unfolding(crate::specs::Pages::without_page))]
pub fn strike_page(pages: &mut [u32], p: usize)
    requires { p < length pages.old }
    ensures { pages.new ≡ without_page pages.old p }
{
    pages[p] = 0;
}

// Writes x to the row of page p.
#[tactic(auto, unfolding(crate::specs::Pages::with_row))]
pub fn write_row(sketches: &mut [u8], m: usize, p: usize, x: &[u8])
    requires m_in_bounds { p * m + m ≤ length sketches.old }
    requires x_len { length x.now ≡ m }
    ensures { sketches.new ≡ with_row m sketches.old p x.now }
{
    let start = p * m;
    sketches[start..start + m].copy_from_slice(x);
}
