// The entries, written anew where a record has changed.
ghost use Rattle.std.specs.Prelude.{◌≡◌, ◌≤◌, ◌<◌, length};
ghost use Rattle.layout.specs.Settings.{settings_length};
ghost use Rattle.rights.specs.Entries.{renewed, class_renewed};
ghost use Rattle.rights.specs.Holders.{member_renewed};

use crate::records;
use layout::settings::{ENTRIES, MEMBERS, READERS};

// Writes the reader's entry as the records have it.
#[tactic(auto, unfolding(crate::specs::Entries::renewed, layout::specs::Entries::with_entry))]
pub fn renew(ws: &mut [u32], reader: usize)
    requires { (settings_length ≤ length ws.old) × (reader < 256) }
    ensures { ws.new ≡ renewed ws.old reader }
{
    let classes = records::open_classes(ws, reader);
    let at = ENTRIES + 2 * reader;
    ws[at] = classes.low;
    ws[at + 1] = classes.high;
}

// Writes the class in the reader's entry if he is a member of the group: it is open to him where one of his groups is a holder.
#[tactic(auto, unfolding(crate::specs::Holders::member_renewed, crate::specs::Register::is_member))]
fn renew_member(ws: &mut [u32], reader: usize, group: usize, class: usize, holders: u32)
    requires { (settings_length ≤ length ws.old) × (reader < 256) × (group < 32) × (class < 64) }
    ensures { ws.new ≡ member_renewed ws.old reader group class holders }
{
    if words::has(ws, MEMBERS, reader * 32 + group) {
        let on = ws[MEMBERS + reader] & holders != 0;
        words::set(ws, ENTRIES, reader * 64 + class, on);
    }
}

// Writes the class as the records have it in the entries of the group's members.
#[tactic(auto, unfolding(crate::specs::Entries::class_renewed))]
pub fn renew_class(ws: &mut [u32], group: usize, class: usize)
    requires { (settings_length ≤ length ws.old) × (group < 32) × (class < 64) }
    ensures { ws.new ≡ class_renewed ws.old group class 256 }
{
    let holders = records::holders(ws, class);
    for reader in 0..READERS as usize {
        renew_member(ws, reader, group, class, holders);
    }
}
