// Are the entries what the records say? One that is not is stale.
ghost use Rattle.std.specs.Prelude.{◌≡◌, ◌≤◌, ◌<◌, length};
ghost use Rattle.layout.specs.Settings.{settings_length};
ghost use Rattle.rights.specs.Entries.{is_current, all_current};

use crate::records;
use layout::settings::READERS;

// Is the reader's entry current?
#[tactic(auto, unfolding(crate::specs::Entries::is_current))]
fn is_current(ws: &[u32], reader: usize) -> bool
    requires { (settings_length ≤ length ws.now) × (reader < 256) }
    ensures { result ≡ is_current ws.now reader }
{
    crate::entry(ws, reader) == records::open_classes(ws, reader)
}

// Is no entry stale?
#[tactic(auto, unfolding(crate::specs::Entries::all_current))]
pub fn all_current(ws: &[u32]) -> bool
    requires { settings_length ≤ length ws.now }
    ensures { result ≡ all_current ws.now }
{
    for reader in 0..READERS as usize {
        if !is_current(ws, reader) {
            return false;
        }
    }
    true
}
