// The version of the library, for C: major × 10,000 + minor × 100 + patch, as include/vetchdawn.h has it. The name ends in the major
// version, so that a program that calls it does not link with a library whose calls or layout are others.
#![tactic(auto)]

ghost use Rattle.std.specs.Prelude.{◌≡◌, ◌+◌, ◌*◌};

const MAJOR: u32 = 3;

const MINOR: u32 = 0;

const PATCH: u32 = 0;

#[unsafe(no_mangle)]
pub extern "C" fn vetch_version_3() -> u32
    ensures { result ≡ 3 * 10000 + 0 * 100 + 0 }
{
    MAJOR * 10000 + MINOR * 100 + PATCH
}
