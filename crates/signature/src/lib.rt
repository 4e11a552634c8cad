// The signature of a sketch: its packed bytes folded to four by exclusive or (layout/specs/Signature.antt). The distance of two
// signatures is at most the distance of the sketches, so that a page can be left out of a search without its row being read.
#![tactic(auto)]

ghost use Rattle.std.specs.Prelude.{◌≡◌, ◌≤◌, length};
ghost use Rattle.sketch.specs.Settings.{Bits};
ghost use Rattle.blocks.specs.RowBytes.{reduced};
ghost use Rattle.layout.specs.Signature.{signature};
ghost use Rattle.signature.specs.Distance.{signature_distance};

use blocks::packed::row_byte;
use distances::Distances;
use sketch::limits::{packed_length, per_byte};
use sketch::packing::symbols_at;

// The signature of a row of symbols, each taken modulo 2^b, so that any row has one; symbols in range stay as they are.
// From the last packed byte to the first: the word is rotated by a byte, and the byte goes into its lowest.
#[tactic(auto, unfolding(layout::specs::Signature::signature, blocks::specs::RowBytes::reduced))]
pub fn signature_of(b: u32, row: &[u8]) -> u32
    requires bits { Bits b }
    requires row_len_bound { length row.now ≤ 64 }
    ensures { result ≡ signature b (reduced b row.now) }
{
    let n = row.len();
    let z = per_byte(b);
    let mut s: u32 = 0;
    for k in (0..packed_length(b, n)).rev() {
        let count = symbols_at(b, n, k);
        s = row_byte(b, row, k * z, count) as u32 ^ s.rotate_left(8);
    }
    s
}

// The distance of two signatures: four entries of the table of byte distances, one for each byte of the word.
#[tactic(auto, unfolding(crate::specs::Distance::signature_distance, meaning::specs::Lists::sum, meaning::specs::Lists::from, meaning::specs::Lists::upto, meaning::specs::Sketch::group))]
pub fn signature_distance(table: &Distances, b: u32, s: u32, t: u32) -> u32
    requires bits { Bits b }
    ensures { result ≡ signature_distance b s t }
{
    let x = s ^ t;
    table.byte_distance(b, (x % 256) as u8)
        + table.byte_distance(b, (x / 256 % 256) as u8)
        + table.byte_distance(b, (x / 65536 % 256) as u8)
        + table.byte_distance(b, (x / 16777216 % 256) as u8)
}
