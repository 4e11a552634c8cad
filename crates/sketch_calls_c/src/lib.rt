// The calls on sketches for C. A slice is a pointer and a length; the number is the result, and the value is written beside it.
#![tactic(auto)]

ghost use Rattle.sketch_calls.specs.Calls.{Measured, Packed, Unpacked};

use refusals::number_and_value;
use sketch_calls::calls::{measure, pack, unpack};

// The distance of two sketches; 0 with a refusal.
#[unsafe(no_mangle)]
pub extern "C" fn vetch_measure(b: u32, m: u32, x: &[u8], y: &[u8], distance: &mut u32) -> u32
    ensures { Measured b m x.now y.now result distance.new }
{
    let (number, value) = number_and_value(measure(b, m, x, y));
    *distance = value;
    number
}

// A sketch packed into out, and the length written; with 13 the length needed, and 0 with any other refusal.
#[unsafe(no_mangle)]
pub extern "C" fn vetch_pack(b: u32, m: u32, x: &[u8], out: &mut [u8], length: &mut u32) -> u32
    ensures { Packed b m x.now out.old result length.new out.new }
{
    let (number, value) = number_and_value(pack(b, m, x, out));
    *length = value;
    number
}

// A sketch out of its packed bytes into out, and the length as in packing.
#[unsafe(no_mangle)]
pub extern "C" fn vetch_unpack(
    b: u32,
    m: u32,
    bytes: &[u8],
    out: &mut [u8],
    length: &mut u32,
) -> u32
    ensures { Unpacked b m bytes.now out.old result length.new out.new }
{
    let (number, value) = number_and_value(unpack(b, m, bytes, out));
    *length = value;
    number
}
