// Question 4 for a sketch; how many symbols a byte takes, and how many bytes a sketch needs.
ghost use Rattle.std.specs.Prelude.{◌≡◌, ◌≤◌};
ghost use Rattle.meaning.specs.Sketch.{per_byte, packed_length};
ghost use Rattle.meaning.specs.SketchCalls.{sketch_limits};
ghost use Rattle.sketch.specs.Settings.{Bits};

// b is 1 to 8 and m is 1 to 64.
#[tactic(auto, unfolding(meaning::specs::SketchCalls::sketch_limits))]
pub fn within_limits(b: u32, m: u32) -> bool
    ensures { result ≡ sketch_limits b m }
{
    if b == 0 {
        return false;
    }
    if b > 8 {
        return false;
    }
    if m == 0 {
        return false;
    }
    m <= 64
}

// z: how many symbols a byte takes.
#[tactic(auto, unfolding(meaning::specs::Sketch::per_byte))]
pub fn per_byte(b: u32) -> usize
    requires { Bits b }
    ensures { result ≡ per_byte b }
{
    (8 / b) as usize
}

// How many bytes n symbols need.
#[tactic(auto, unfolding(meaning::specs::Sketch::packed_length))]
pub fn packed_length(b: u32, n: usize) -> usize
    requires bits { Bits b }
    requires n_bound { n ≤ 64 }
    ensures { result ≡ packed_length b n }
{
    let z = per_byte(b);
    (n + z - 1) / z
}
