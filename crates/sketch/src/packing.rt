// Packing: z symbols into a byte, the first lowest; and back.
ghost use Rattle.std.specs.Prelude.{◌≡◌, true, ◌<◌, ◌≤◌, length, take};
ghost use Rattle.meaning.specs.Lists.{onto};
ghost use Rattle.meaning.specs.Sketch.{in_range, per_byte, packed_length, pack_byte, pack, group, symbols_at, packable, all_packable, unpack};
ghost use Rattle.sketch.specs.Settings.{Bits};

use crate::limits::{packed_length, per_byte};

// `Bits b` and `n ≤ 64` stay clauses on two numbers: the bodies shift by b or divide by it, so that a type would be opened in every one.

// How many symbols byte k of a packing of n symbols holds.
#[tactic(auto, unfolding(meaning::specs::Sketch::symbols_at))]
pub fn symbols_at(b: u32, n: usize, k: usize) -> usize
    requires bits { Bits b }
    requires n_bound { n ≤ 64 }
    requires k_bound { k < packed_length b n }
    ensures { result ≡ symbols_at b n k }
{
    let z = per_byte(b);
    let left = n - k * z;
    if left < z { left } else { z }
}

// One byte: its symbols from the last, the highest, to the first.
#[tactic(auto, unfolding(meaning::specs::Sketch::pack_byte))]
pub fn pack_byte(b: u32, xs: &[u8]) -> u8
    requires bits { Bits b }
    requires xs_len_bound { length xs.now ≤ per_byte b }
    requires xs_value { in_range b xs.now ≡ true }
    ensures { result ≡ pack_byte b xs.now }
{
    let mut v: u32 = 0;
    for i in (0..xs.len()).rev() {
        v = (v << b) + xs[i] as u32;
    }
    v as u8
}

// The first n symbols of xs, packed into the beginning of out.
#[tactic(auto, unfolding(meaning::specs::Sketch::pack))]
pub fn pack_into(b: u32, n: usize, xs: &[u8], out: &mut [u8])
    requires bits { Bits b }
    requires n_bound { n ≤ 64 }
    requires n_in_bounds { n ≤ length xs.now }
    requires xs_value { in_range b (take n xs.now) ≡ true }
    requires n_in_bounds_2 { packed_length b n ≤ length out.old }
    ensures { out.new ≡ onto (pack b (take n xs.now)) out.old }
{
    let z = per_byte(b);
    for j in 0..packed_length(b, n) {
        let at = j * z;
        let end = at + symbols_at(b, n, j);
        out[j] = pack_byte(b, &xs[at..end]);
    }
}

// The b-bit group i of a byte.
#[tactic(auto, unfolding(meaning::specs::Sketch::group))]
pub fn group_of(b: u32, v: u8, i: usize) -> u8
    requires bits { Bits b }
    requires i_bound { i < per_byte b }
    ensures { result ≡ group b v i }
{
    let mask = (1u32 << b) - 1;
    ((v as u32 >> (b as usize * i)) & mask) as u8
}

// n symbols out of bytes, written to the beginning of out. Byte and group are counted along: i / z and i % z would divide at each symbol.
#[tactic(auto, unfolding(meaning::specs::Sketch::unpack))]
pub fn unpack_into(b: u32, n: usize, bytes: &[u8], out: &mut [u8])
    requires bits { Bits b }
    requires n_bound { n ≤ 64 }
    requires n_in_bounds { packed_length b n ≤ length bytes.now }
    requires n_in_bounds_2 { n ≤ length out.old }
    ensures { out.new ≡ onto (unpack b n bytes.now) out.old }
{
    let z = per_byte(b);
    let mut k = 0;
    let mut g = 0;
    for i in 0..n {
        out[i] = group_of(b, bytes[k], g);
        g += 1;
        if g == z {
            k += 1;
            g = 0;
        }
    }
}

// Whether v is a byte that packing n symbols can give at place k: its filler and the bits above b × z are 0.
#[tactic(auto, unfolding(meaning::specs::Sketch::symbols_at, meaning::specs::Sketch::packable))]
pub fn packable(b: u32, n: usize, k: usize, v: u8) -> bool
    requires bits { Bits b }
    requires n_bound { n ≤ 64 }
    requires k_bound { k < packed_length b n }
    ensures { result ≡ packable b n k v }
{
    let bits = b as usize * symbols_at(b, n, k);
    (v as u32) < 1u32 << bits
}

// Whether each byte is one that packing n symbols can give at its place.
#[tactic(auto, unfolding(meaning::specs::Sketch::all_packable, meaning::specs::Lists::upto))]
pub fn all_packable(b: u32, n: usize, bytes: &[u8]) -> bool
    requires bits { Bits b }
    requires n_bound { n ≤ 64 }
    requires bytes_len { length bytes.now ≡ packed_length b n }
    ensures { result ≡ all_packable b n bytes.now }
{
    for k in 0..bytes.len() {
        if !packable(b, n, k, bytes[k]) {
            return false;
        }
    }
    true
}
