// Blocks of a sketch: the first (m mod q) have one symbol more than the others. Which block is told by m, q and j: three numbers, as
// the definitions have them; a struct of the three would be made anew at each call.
ghost use Rattle.std.specs.Prelude.{◌≡◌, true, ◌<◌, ◌≤◌, length};
ghost use Rattle.meaning.specs.Lists.{onto};
ghost use Rattle.meaning.specs.Sketch.{in_range, packed_length, pack, block_length, block_start, block};
ghost use Rattle.sketch.specs.Settings.{Bits};

use crate::packing::pack_into;

// How many symbols block j of q has.
#[tactic(auto, unfolding(meaning::specs::Sketch::block_length))]
pub fn block_length(m: usize, q: usize, j: usize) -> usize
    requires m_bound { m ≤ 64 }
    requires j_lt_q { j < q }
    ensures { result ≡ block_length m q j }
{
    if j < m % q {
        return m / q + 1;
    }
    m / q
}

// Where block j of q begins.
#[tactic(auto, unfolding(meaning::specs::Sketch::block_start))]
pub fn block_start(m: usize, q: usize, j: usize) -> usize
    requires m_bound { m ≤ 64 }
    requires j_lt_q { j < q }
    ensures { result ≡ block_start m q j }
{
    let longer = m % q;
    let before = j * (m / q);
    if j < longer {
        return before + j;
    }
    before + longer
}

// Block j of a sketch, packed on its own into the beginning of out.
#[tactic(auto, unfolding(meaning::specs::Sketch::block, meaning::specs::Sketch::pack))]
pub fn pack_block(b: u32, m: usize, q: usize, j: usize, sketch: &[u8], out: &mut [u8])
    requires bits { Bits b }
    requires m_bound { m ≤ 64 }
    requires j_lt_q { j < q }
    requires m_in_bounds { m ≤ length sketch.now }
    requires sketch_value { in_range b sketch.now ≡ true }
    requires j_in_bounds { packed_length b (block_length m q j) ≤ length out.old }
    ensures { out.new ≡ onto (pack b (block m q j sketch.now)) out.old }
{
    let start = block_start(m, q, j);
    let n = block_length(m, q, j);
    pack_into(b, n, &sketch[start..], out);
}
