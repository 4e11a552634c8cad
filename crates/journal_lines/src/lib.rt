// The lines that the program writes, made in a lent buffer: what stands behind a line stays as it was.
#![tactic(auto)]

ghost use Rattle.std.specs.Prelude.{◌≡◌, ◌∷◌, ◌++◌, ◌+◌, ◌*◌, ◌≤◌, length};
ghost use Rattle.std.proofs.lemmas.List.Edits.{sets};
ghost use Rattle.meaning.specs.Output.{output};
ghost use Rattle.meaning.specs.Journal.{decimal, field, hits, search_line, refusal_line, last_line};

// How many decimal digits n has: ten at most.
#[tactic(auto, unfolding(meaning::specs::Journal::decimal))]
fn places(n: u32) -> usize
    ensures value { result ≡ length (decimal n) }
    ensures upper_bound { result ≤ 10 }
{
    let mut rest = n;
    for k in 1..10 {
        if rest < 10 {
            return k;
        }
        rest /= 10;
    }
    10
}

// The decimal digits of a number at an offset. The offset behind them is given, here and below. They are written where they are to stand:
// copied out of a buffer, as `itoa::Buffer` has them, they took a line with many hits a quarter longer.
// No `write!`: it gives a Result, and no contract says that it is Ok where the buffer has room.
fn put_number(n: u32, out: &mut [u8], at: usize) -> usize
    requires { at + 10 ≤ length out.old }
    ensures out_after { out.new ≡ sets out.old at (decimal n) }
    ensures value { result ≡ at + length (decimal n) }
    ensures upper_bound { result ≤ at + 10 }
{
    let end = at + places(n);
    itoa::write_digits(u64::from(n), out, end);
    end
}

// A mark and a number.
#[tactic(auto, unfolding(meaning::specs::Journal::decimal))]
fn put_marked(mark: u8, n: u32, out: &mut [u8], at: usize) -> usize
    requires { at + 11 ≤ length out.old }
    ensures out_after { out.new ≡ sets out.old at (mark ∷ decimal n) }
    ensures value { result ≡ at + length (mark ∷ decimal n) }
    ensures upper_bound { result ≤ at + 11 }
{
    out[at] = mark;
    put_number(n, out, at + 1)
}

// A blank and a number.
fn put_field(n: u32, out: &mut [u8], at: usize) -> usize
    requires { at + 11 ≤ length out.old }
    ensures out_after { out.new ≡ sets out.old at (field n) }
    ensures value { result ≡ at + length (field n) }
    ensures upper_bound { result ≤ at + 11 }
{
    put_marked(b' ', n, out, at)
}

// A hit: a blank, the page, a colon and its distance.
#[tactic(auto, unfolding(meaning::specs::Journal::decimal), using(crate::proofs::Digits::hit_first))]
fn put_hit(page: u32, distance: u32, out: &mut [u8], at: usize) -> usize
    requires { at + 22 ≤ length out.old }
    ensures out_after { out.new ≡ sets out.old at (field page ++ (58 ∷ decimal distance)) }
    ensures value { result ≡ at + length (field page ++ (58 ∷ decimal distance)) }
    ensures upper_bound { result ≤ at + 22 }
{
    let colon = put_field(page, out, at);
    put_marked(b':', distance, out, colon)
}

// The hits, and the end of the line. Pages and distances are two lists, here and below, as a search is lent them.
#[tactic(auto, unfolding(meaning::specs::Journal::hits))]
fn put_hits(pages: &[u16], distances: &[u16], out: &mut [u8], at: usize) -> usize
    requires pages_len { length pages.now ≡ length distances.now }
    requires pages_in_bounds { at + 22 * length pages.now + 1 ≤ length out.old }
    ensures out_after { out.new ≡ sets out.old at (hits pages.now distances.now) }
    ensures value { result ≡ at + length (hits pages.now distances.now) }
    ensures upper_bound { result ≤ length out.new }
{
    let mut to = at;
    for (&page, &distance) in pages.iter().zip(distances) {
        to = put_hit(u32::from(page), u32::from(distance), out, to);
    }
    out[to] = b'\n';
    to + 1
}

// `S`, the reader, the count and the hits. The length of the line is given, here and below, and not the line: of a buffer whose part is
// given back, `out_after` could not say what it holds.
#[tactic(auto, unfolding(meaning::specs::Journal::search_line), using(crate::proofs::Digits::two_first))]
pub fn search_line(reader: u32, pages: &[u16], distances: &[u16], out: &mut [u8]) -> usize
    requires pages_len { length pages.now ≡ length distances.now }
    requires pages_len_bound { length pages.now ≤ 65535 }
    requires pages_in_bounds { 24 + 22 * length pages.now ≤ length out.old }
    ensures out_after { out.new ≡ sets out.old 0 (search_line reader (output pages.now distances.now)) }
    ensures value { result ≡ length (search_line reader (output pages.now distances.now)) }
    ensures upper_bound { result ≤ length out.new }
{
    out[0] = b'S';
    let count = put_field(reader, out, 1);
    let first = put_field(pages.len() as u32, out, count);
    put_hits(pages, distances, out, first)
}

// `E`, the offset of the refused command and the number, any one. No loop over the fields, here and in the last line: its invariant
// would be longer than both bodies.
#[tactic(auto, unfolding(meaning::specs::Journal::refusal_line), using(crate::proofs::Digits::two_stored, crate::proofs::Digits::fields_long, crate::proofs::Digits::end_long))]
pub fn refusal_line(at: u32, number: u32, out: &mut [u8]) -> usize
    requires { 24 ≤ length out.old }
    ensures out_after { out.new ≡ sets out.old 0 (refusal_line at number) }
    ensures value { result ≡ length (refusal_line at number) }
    ensures upper_bound { result ≤ length out.new }
{
    out[0] = b'E';
    let second = put_field(at, out, 1);
    let end = put_field(number, out, second);
    out[end] = b'\n';
    end + 1
}

// `Z` and the count of bytes taken.
#[tactic(auto, unfolding(meaning::specs::Journal::last_line), using(crate::proofs::Digits::line_stored, crate::proofs::Digits::fields_long, crate::proofs::Digits::end_long))]
pub fn last_line(count: u32, out: &mut [u8]) -> usize
    requires { 24 ≤ length out.old }
    ensures out_after { out.new ≡ sets out.old 0 (last_line count) }
    ensures value { result ≡ length (last_line count) }
    ensures upper_bound { result ≤ length out.new }
{
    out[0] = b'Z';
    let end = put_field(count, out, 1);
    out[end] = b'\n';
    end + 1
}
