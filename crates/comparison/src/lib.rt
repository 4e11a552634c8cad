// A row of symbols compared with a query against a radius.
#![tactic(auto)]

ghost use Rattle.std.specs.Prelude.{◌≡◌, ◌<◌, ◌≤◌, length};
ghost use Rattle.meaning.specs.Sketch.{distance};
ghost use Rattle.sketch.specs.Settings.{Bits};
ghost use Rattle.comparison.specs.Shapes.{shape_of, Shaped};
ghost use Rattle.comparison.specs.Verdicts.{verdict_of};

use sketch::limits::{packed_length, per_byte};
use sketch::packing::symbols_at;

// How the symbols of a sketch lie in the bytes of its packing: z in each, the rest in the last.
#[derive(Clone, Copy)]
pub struct Shape {
    pub z: usize,
    pub bytes: usize,
    pub last: usize,
}

// The shape of n symbols of b bits, worked out once for all rows.
pub fn shape_of(b: u32, n: usize) -> Shape
    requires bits { Bits b }
    requires n_nonzero { (0 < n) × (n ≤ 64) }
    ensures { result ≡ shape_of b n }
{
    let bytes = packed_length(b, n);
    Shape {
        z: per_byte(b),
        bytes,
        last: symbols_at(b, n, bytes - 1),
    }
}

// The bytes of the packing in turn, and the groups of each; left at the first place where the distance passes the radius.
// `left` is what the radius still allows. A distance within the radius is given; one beyond it is none.
// By rule two loops, one over bytes and in it one over groups, left by label with the verdict.
#[tactic(auto, unfolding(crate::specs::Verdicts::verdict_of, meaning::specs::Sketch::distance))]
pub fn compare(shape: Shape, row: &[u8], query: &[u8], radius: u32) -> Option<u32>
    requires shaped { Shaped shape (length row.now) }
    requires row_len { length row.now ≡ length query.now }
    ensures { result ≡ verdict_of (distance row.now query.now) radius }
{
    let mut left = radius;
    let mut i = 0;
    let mut k = 0;
    'bytes: loop {
        if k == shape.bytes {
            break 'bytes Some(radius - left);
        }
        k += 1;
        let mut groups = if k == shape.bytes {
            shape.last
        } else {
            shape.z
        };
        while groups > 0 {
            let differs = (row[i] != query[i]) as u32;
            if left < differs {
                break 'bytes None;
            }
            left -= differs;
            i += 1;
            groups -= 1;
        }
    }
}
