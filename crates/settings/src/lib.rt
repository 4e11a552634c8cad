// The settings table: question 4, the opening that the table shows, its thresholds, the free link, and writing an opening.
// That the table is long enough is a clause: a type for it would be two, to be read and to be written, made anew for every call.
#![tactic(auto)]

ghost use Rattle.std.specs.Prelude.{◌≡◌, ◌≤◌, ltb, length, get_or, set};
ghost use Rattle.std.proofs.Math.Seq.{paste};
ghost use Rattle.meaning.specs.Lists.{all};
ghost use Rattle.layout.specs.Headers.{numbers, numbers_in};
ghost use Rattle.layout.specs.Settings.{settings_length, settings_of, shows_opening, with_header, free_at};
ghost use Rattle.layout.specs.Limits.{limits_of};
ghost use Rattle.layout.specs.Header.{header_of, with_thresholds, opening_of};
ghost use Rattle.refusals.specs.Refusals.{numbered};

use layout::settings::{FREE, LENGTH, LEVELS, THRESHOLDS};
use layout::{Header, Numbers};
use refusals::Refusal;

const MARK: u32 = 0x56440004;

// Question 4 of an opening that is lent so many thresholds, each of 16 bits.
#[tactic(auto, unfolding(layout::specs::Limits::limits_of, meaning::specs::SketchCalls::sketch_limits))]
pub fn limits(given: Numbers, thresholds: usize) -> bool
    ensures { result ≡ limits_of given.b given.m given.q given.pages given.nodes thresholds }
{
    ((0 < given.b) & (given.b <= 8) & ((0 < given.m) & (given.m <= 64)))
        & ((0 < given.q) & (given.q <= 8) & (given.q <= given.m))
        & ((0 < given.pages) & (given.pages < 65536))
        & ((given.q <= given.nodes) & (given.nodes <= 262144))
        & (thresholds == LEVELS)
}

// Is each threshold in the table below 65,536? No branch: one pass joins their bits.
// Not one function with `sketch::symbols::in_range`: there the limit is a number of bits, and bytes are joined.
#[tactic(auto, unfolding(layout::specs::Settings::settings_of))]
fn thresholds_fit(settings: &[u32]) -> bool
    requires { settings_length ≤ length settings.now }
    ensures { result ≡ all (λ t. ltb t 65536) (settings_of settings.now).thresholds }
{
    let mut seen: u32 = 0;
    for t in thresholds(settings) {
        seen |= *t;
    }
    seen < 65536
}

// Does the table show an opening?
#[tactic(auto, unfolding(layout::specs::Settings::settings_of, layout::specs::Settings::shows_opening))]
fn shows_opening(settings: &[u32]) -> bool
    requires { settings_length ≤ length settings.now }
    ensures { result ≡ shows_opening settings.now }
{
    (settings[0] == MARK) & limits(numbers(settings), LEVELS) & thresholds_fit(settings)
}

// The numbers of an opening: words 1 to 5.
#[tactic(auto, unfolding(layout::specs::Settings::settings_of))]
fn numbers(settings: &[u32]) -> Numbers
    requires { settings_length ≤ length settings.now }
    ensures { result ≡ header_of (settings_of settings.now) }
{
    Numbers::new(
        settings[1],
        settings[2],
        settings[3],
        settings[4],
        settings[5],
    )
}

// The opening that the table shows; else 5 where it is too short, and 6 where it shows none.
#[tactic(auto, unfolding(layout::specs::Header::opening_of))]
pub fn opening(settings: &[u32]) -> Result<Header, Refusal>
    ensures { numbers_in (numbered result) ≡ opening_of settings.now }
{
    if settings.len() < LENGTH {
        return Err(Refusal::ShortTable);
    }
    if !shows_opening(settings) {
        return Err(Refusal::NoOpening);
    }
    Ok(Header::new(numbers(settings)))
}

// The thresholds of all levels: a part of the table itself.
#[tactic(auto, unfolding(layout::specs::Settings::settings_of))]
pub fn thresholds(settings: &[u32]) -> &[u32; LEVELS]
    requires { settings_length ≤ length settings.now }
    ensures { result.now ≡ (settings_of settings.now).thresholds }
{
    settings[THRESHOLDS..].first_chunk().unwrap()
}

// The link to the first free node.
pub fn free_link(settings: &[u32]) -> u32
    requires { settings_length ≤ length settings.now }
    ensures { result ≡ get_or settings.now free_at 0 }
{
    settings[FREE]
}

// Writes the link to the first free node.
pub fn set_free_link(settings: &mut [u32], link: u32)
    requires { settings_length ≤ length settings.old }
    ensures { settings.new ≡ set settings.old free_at link }
{
    settings[FREE] = link;
}

// Writes the thresholds to their 64 words. No `copy_from_slice`: they are lent as numbers of 16 bits.
fn write_thresholds(settings: &mut [u32], thresholds: &[u16; LEVELS])
    requires settings_length_in_bounds { settings_length ≤ length settings.old }
    ensures { settings.new ≡ paste settings.old 6 thresholds.now 64 }
{
    for k in 0..LEVELS {
        settings[THRESHOLDS + k] = thresholds[k] as u32;
    }
}

// Writes an opening: the first 70 words. Word by word: the table is a slice of words, and no struct.
#[tactic(auto, unfolding(layout::specs::Settings::with_header))]
pub fn write_header(settings: &mut [u32], h: Header, thresholds: &[u16; LEVELS])
    requires settings_length_in_bounds { settings_length ≤ length settings.old }
    ensures { settings.new ≡ with_header settings.old (with_thresholds (numbers h) thresholds.now) }
{
    settings[0] = MARK;
    settings[1] = h.b as u32;
    settings[2] = h.m as u32;
    settings[3] = h.q as u32;
    settings[4] = h.pages as u32;
    settings[5] = h.nodes as u32;
    write_thresholds(settings, thresholds);
}
