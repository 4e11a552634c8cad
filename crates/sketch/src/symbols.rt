// Symbols: their range, whether all are 0, and a pass over two sketches.
ghost use Rattle.std.specs.Prelude.{◌≡◌, ◌≤◌, length};
ghost use Rattle.meaning.specs.Sketch.{distance, in_range, blank};
ghost use Rattle.sketch.specs.Pass.{GoneOver};
ghost use Rattle.sketch.specs.Settings.{Bits};

// Whether every symbol is below 2^b. Of the symbols together, bit by bit, that is one test.
#[tactic(auto, unfolding(meaning::specs::Sketch::in_range))]
pub fn in_range(b: u32, xs: &[u8]) -> bool
    requires { Bits b }
    ensures { result ≡ in_range b xs.now }
{
    let mut bits: u8 = 0;
    for x in xs {
        bits |= *x;
    }
    (bits as u32) < 1u32 << b
}

// Whether every symbol is 0.
#[tactic(auto, unfolding(meaning::specs::Sketch::blank))]
pub fn blank(xs: &[u8]) -> bool
    ensures { result ≡ blank xs.now }
{
    xs.iter().all(|x| *x == 0)
}

// What a pass over two sketches gives: the bits of all symbols, joined, and the number of places where the two differ.
#[derive(Clone, Copy)]
pub struct Pass {
    pub bits: u8,
    pub differing: u8,
}

// One pass over two sketches, range and difference together. There is no branch at a place, so that many are taken at a time.
// By index: with `zip` measuring takes up to 14 in 100 more instructions.
pub fn go_over(xs: &[u8], ys: &[u8]) -> Pass
    requires xs_len { length xs.now ≡ length ys.now }
    requires xs_len_bound { length xs.now ≤ 64 }
    ensures { GoneOver xs.now ys.now result.bits result.differing }
{
    let mut bits: u8 = 0;
    let mut d: u8 = 0;
    for i in 0..xs.len() {
        bits |= xs[i] | ys[i];
        d += (xs[i] != ys[i]) as u8;
    }
    Pass { bits, differing: d }
}

// The number of places where two sketches differ.
pub fn distance(xs: &[u8], ys: &[u8]) -> u32
    requires xs_len { length xs.now ≡ length ys.now }
    requires xs_len_bound { length xs.now ≤ 64 }
    ensures { result ≡ distance xs.now ys.now }
{
    go_over(xs, ys).differing as u32
}
