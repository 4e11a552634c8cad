// The rights register in the settings table. Memberships and grants are its records; beside them stands for each reader an entry, the
// set of the classes that they open to him. Every change of a record writes the entries that hang on it.
// The laws of the definitions that the contracts cite are in proofs/.
// That the table is long enough is a clause, since it is lent as a slice; that a change is in range is one, asked by `is_in_range`.
#![tactic(auto)]

ghost use Rattle.std.specs.Prelude.{◌≡◌, ◌≤◌, ◌<◌, length, true};
ghost use Rattle.meaning.specs.Rights.{change_in_range};
ghost use Rattle.layout.specs.Settings.{settings_length};
ghost use Rattle.rights.specs.Register.{opens, with_member, with_grant};
ghost use Rattle.rights.specs.Changes.{change_meant};
ghost use Rattle.rights.specs.Open.{entry_of, is_open};
ghost use Rattle.rights.specs.Entries.{registered, renewed, class_renewed};

pub mod current;
mod entries;
mod records;

use layout::settings::{CLASSES, ENTRIES, GRANTS, GROUPS, MEMBERS, READERS};

// A set of classes: 0 to 31 in the low word, 32 to 63 in the high, as an entry of the table has them.
#[derive(Clone, Copy, PartialEq, Eq)]
pub struct Classes {
    pub low: u32,
    pub high: u32,
}

// A change of the records: a reader becomes a member of a group or is one no more, and a group is granted a class or has it no more.
#[derive(Clone, Copy, Debug, PartialEq, Eq)]
pub enum Change {
    Join { reader: u32, group: u32 },
    Leave { reader: u32, group: u32 },
    Grant { group: u32, class: u32 },
    Revoke { group: u32, class: u32 },
}

// Are the numbers of the change below their limits?
#[tactic(auto, unfolding(crate::specs::Changes::change_meant))]
pub fn is_in_range(change: Change) -> bool
    ensures { result ≡ change_in_range (change_meant change) }
{
    match change {
        Change::Join { reader, group } | Change::Leave { reader, group } => {
            (reader < READERS) & (group < GROUPS)
        }
        Change::Grant { group, class } | Change::Revoke { group, class } => {
            (group < GROUPS) & (class < CLASSES)
        }
    }
}

// Makes a change whose numbers are in range. Inline, as `register::change` is.
#[inline(always)]
#[tactic(auto, unfolding(crate::specs::Changes::change_meant, crate::specs::Entries::registered), using(crate::proofs::Ranges::below))]
pub fn make_change(ws: &mut [u32], change: Change)
    requires long { settings_length ≤ length ws.old }
    requires in_range { change_in_range (change_meant change) ≡ true }
    ensures { ws.new ≡ registered (change_meant change) ws.old }
{
    match change {
        Change::Join { reader, group } => set_member(ws, reader as usize, group as usize, true),
        Change::Leave { reader, group } => set_member(ws, reader as usize, group as usize, false),
        Change::Grant { group, class } => set_grant(ws, group as usize, class as usize, true),
        Change::Revoke { group, class } => set_grant(ws, group as usize, class as usize, false),
    }
}

// Makes the reader a member of the group, or takes him out of it.
fn set_member(ws: &mut [u32], reader: usize, group: usize, on: bool)
    requires { (settings_length ≤ length ws.old) × (reader < 256) × (group < 32) }
    ensures { ws.new ≡ renewed (with_member ws.old reader group on) reader }
{
    words::set(ws, MEMBERS, reader * 32 + group, on);
    entries::renew(ws, reader);
}

// Grants the class to the group, or takes it from the group.
fn set_grant(ws: &mut [u32], group: usize, class: usize, on: bool)
    requires { (settings_length ≤ length ws.old) × (group < 32) × (class < 64) }
    ensures { ws.new ≡ class_renewed (with_grant ws.old group class on) group class 256 }
{
    words::set(ws, GRANTS, group * 64 + class, on);
    entries::renew_class(ws, group, class);
}

// The classes open to the reader: his entry.
#[tactic(auto, unfolding(crate::specs::Open::entry_of, layout::specs::Entries::low_of, layout::specs::Entries::high_of))]
pub fn entry(ws: &[u32], reader: usize) -> Classes
    requires { (settings_length ≤ length ws.now) × (reader < 256) }
    ensures { result ≡ entry_of ws.now reader }
{
    let at = ENTRIES + 2 * reader;
    Classes {
        low: ws[at],
        high: ws[at + 1],
    }
}

// Is the class in the set? A class above 63 is in none.
#[tactic(auto, unfolding(crate::specs::Open::is_open, words::specs::Bits::bit))]
pub fn is_open(k: Classes, class: u32) -> bool
    ensures { result ≡ is_open k class }
{
    if class >= CLASSES {
        return false;
    }
    let word = if class < 32 { k.low } else { k.high };
    (word >> (class % 32)) % 2 == 1
}

// Is the class open to the reader?
#[tactic(auto, unfolding(crate::specs::Register::opens))]
pub fn is_open_to(ws: &[u32], reader: usize, class: u32) -> bool
    requires { (settings_length ≤ length ws.now) × (reader < 256) }
    ensures { result ≡ opens ws.now reader class }
{
    is_open(entry(ws, reader), class)
}
