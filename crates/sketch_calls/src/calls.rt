// The calls on sketches alone: each asks its questions in order, and is refused by the first "no". The value is what was measured or
// written; refused by 13, what is needed.
ghost use Rattle.std.specs.Prelude.{◌≡◌, ◌+◌, min, ◌<◌, ◌≤◌, length};
ghost use Rattle.sketch.specs.Settings.{Bits};
ghost use Rattle.refusals.specs.Refusals.{answer_number, answer_value};
ghost use Rattle.sketch_calls.specs.Calls.{Measured, Packed, Unpacked};
ghost use Rattle.sketch_calls.specs.Measuring.{ending};

use refusals::Refusal;
use sketch::limits::{packed_length, within_limits};
use sketch::packing::{all_packable, pack_into, unpack_into};
use sketch::symbols::{go_over, in_range};

// The places that a turn of `measure_symbols` takes: as many as go into one run of instructions, without a loop.
const STRIP: usize = 32;

// Where the strip that begins at place k ends, of n places. By a branch: with `min` measuring takes up to 18 in 100 more instructions.
fn strip_end(k: usize, n: usize) -> usize
    requires { k < n }
    ensures { result ≡ min (k + 32) n }
{
    if n - k < STRIP {
        return n;
    }
    k + STRIP
}

// The places of two sketches in one loop, range and difference together. After k places all symbols so far are in range, and d is the
// distance of the first k (`After`); a symbol out of range ends it. A turn takes a strip, and asks at its end: with a branch at each place
// long sketches take five times as long. No `for` over `chunks`: that a turn takes at most 32 places is what `strip_end` promises.
#[tactic(auto, unfolding(crate::specs::Measuring::ending))]
fn measure_symbols(b: u32, x: &[u8], y: &[u8]) -> Result<u32, Refusal>
    requires bits { Bits b }
    requires x_len { length x.now ≡ length y.now }
    requires x_len_bound { length x.now ≤ 64 }
    ensures { result ≡ ending b x.now y.now }
{
    let limit = 1u32 << b;
    let mut d: u32 = 0;
    let mut k = 0;
    while k < x.len() {
        let end = strip_end(k, x.len());
        let strip = go_over(&x[k..end], &y[k..end]);
        if strip.bits as u32 >= limit {
            return Err(Refusal::BadSymbol);
        }
        d += strip.differing as u32;
        k = end;
    }
    Ok(d)
}

// The distance of two sketches.
#[tactic(auto, unfolding(meaning::specs::SketchCalls::measure_number, meaning::specs::Refusal::first_no))]
pub fn measure(b: u32, m: u32, x: &[u8], y: &[u8]) -> Result<u32, Refusal>
    ensures { Measured b m x.now y.now (answer_number result) (answer_value result) }
{
    if !within_limits(b, m) {
        return Err(Refusal::BadSettings);
    }
    let n = m as usize;
    if x.len() != n || y.len() != n {
        return Err(Refusal::BadLength);
    }
    measure_symbols(b, x, y)
}

// A sketch packed into the beginning of out.
#[tactic(auto, unfolding(meaning::specs::SketchCalls::pack_number, meaning::specs::Refusal::first_no, meaning::specs::SketchCalls::length_given, meaning::specs::SketchCalls::output_left))]
pub fn pack(b: u32, m: u32, x: &[u8], out: &mut [u8]) -> Result<u32, Refusal>
    ensures { Packed b m x.now out.old (answer_number result) (answer_value result) out.new }
{
    if !within_limits(b, m) {
        return Err(Refusal::BadSettings);
    }
    let n = m as usize;
    let needed = packed_length(b, n);
    let value = needed as u32;
    if x.len() != n {
        return Err(Refusal::BadLength);
    }
    if !in_range(b, x) {
        return Err(Refusal::BadSymbol);
    }
    if out.len() < needed {
        return Err(Refusal::ShortOutput(value));
    }
    pack_into(b, n, x, out);
    Ok(value)
}

// A sketch out of its packed bytes, written to the beginning of out. No one function with `pack`: length, test and leaf are others.
#[tactic(auto, unfolding(meaning::specs::SketchCalls::unpack_number, meaning::specs::Refusal::first_no, meaning::specs::SketchCalls::length_given, meaning::specs::SketchCalls::output_left))]
pub fn unpack(b: u32, m: u32, bytes: &[u8], out: &mut [u8]) -> Result<u32, Refusal>
    ensures { Unpacked b m bytes.now out.old (answer_number result) (answer_value result) out.new }
{
    if !within_limits(b, m) {
        return Err(Refusal::BadSettings);
    }
    let n = m as usize;
    if bytes.len() != packed_length(b, n) {
        return Err(Refusal::BadLength);
    }
    if !all_packable(b, n, bytes) {
        return Err(Refusal::BadSymbol);
    }
    if out.len() < n {
        return Err(Refusal::ShortOutput(m));
    }
    unpack_into(b, n, bytes, out);
    Ok(m)
}
