// Bits and runs of words in a lent table of 32-bit words. The laws of the definitions that the
// contracts cite are in proofs/Bits.antt, proofs/Flags.antt and proofs/Rising.antt.
#![tactic(auto)]

ghost use Rattle.std.specs.Prelude.{◌≡◌, true, false, ◌≢◌, ◌+◌, ◌/◌, ◌≤◌, ◌<◌, length};
ghost use Rattle.words.specs.Bits.{with_bit, lowest, flag, with_flag, zeroed};

// Is flag n of the words from `base` on set? That its word is in the table is a clause: a run of flags is a part of a lent table.
#[tactic(auto, unfolding(crate::specs::Bits::flag, crate::specs::Bits::bit))]
pub fn has(ws: &[u32], base: usize, n: usize) -> bool
    requires { base + n / 32 < length ws.now }
    ensures { result ≡ flag ws.now base n }
{
    let i = base + n / 32;
    let k = (n % 32) as u32;
    (ws[i] >> k) % 2 == 1
}

// Sets flag n of the words from `base` on, or clears it.
#[tactic(auto, unfolding(crate::specs::Bits::with_flag))]
pub fn set(ws: &mut [u32], base: usize, n: usize, on: bool)
    requires { base + n / 32 < length ws.old }
    ensures { ws.new ≡ with_flag ws.old base n on }
{
    let i = base + n / 32;
    let bit = 1u32 << ((n % 32) as u32);
    if on {
        ws[i] |= bit;
    } else {
        ws[i] -= ws[i] & bit;
    }
}

// Writes 0 to the n words from `base` on.
#[tactic(auto, unfolding(crate::specs::Bits::zeroed))]
pub fn zero_run(ws: &mut [u32], base: usize, n: usize)
    requires { base + n ≤ length ws.old }
    ensures { ws.new ≡ zeroed ws.old base n }
{
    ws[base..base + n].fill(0);
}

// The lowest set bit of w, and 32 for 0. No Option: every caller asks of a word that is not 0, and 32 is what the machine's count gives.
#[tactic(auto, unfolding(crate::specs::Bits::lowest))]
pub fn lowest_bit(w: u32) -> u32
    ensures { result ≡ lowest w }
{
    u32::trailing_zeros(w)
}

// w without its lowest set bit.
#[tactic(auto, unfolding(crate::specs::Bits::with_bit, crate::specs::Bits::lowest))]
pub fn without_lowest(w: u32) -> u32
    requires { w ≢ 0 }
    ensures { result ≡ with_bit w (lowest w) false }
{
    w & (w - 1)
}
