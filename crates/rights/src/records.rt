// What the records say: the classes that they open to a reader, and the groups that are granted a class.
ghost use Rattle.std.specs.Prelude.{◌≡◌, ◌≤◌, ◌<◌, length};
ghost use Rattle.layout.specs.Settings.{settings_length};
ghost use Rattle.rights.specs.Open.{open_classes};
ghost use Rattle.rights.specs.Holders.{holders};

use crate::Classes;
use layout::settings::{GRANTS, GROUPS, MEMBERS};

// The classes granted to the groups that have the reader as a member.
#[tactic(auto, unfolding(crate::specs::Open::open_classes, crate::specs::Open::with_group))]
pub fn open_classes(ws: &[u32], reader: usize) -> Classes
    requires { (settings_length ≤ length ws.now) × (reader < 256) }
    ensures { result ≡ open_classes ws.now reader }
{
    // No `for`: the word has the groups that are left, and a turn for each of those alone.
    let mut groups = ws[MEMBERS + reader];
    let mut low: u32 = 0;
    let mut high: u32 = 0;
    while groups != 0 {
        let at = GRANTS + 2 * (words::lowest_bit(groups) as usize);
        low |= ws[at];
        high |= ws[at + 1];
        groups = words::without_lowest(groups);
    }
    Classes { low, high }
}

// The groups that are granted the class, a bit for each.
#[tactic(auto, unfolding(crate::specs::Holders::holders, crate::specs::Register::is_granted))]
pub fn holders(ws: &[u32], class: usize) -> u32
    requires { (settings_length ≤ length ws.now) × (class < 64) }
    ensures { result ≡ holders ws.now class 32 }
{
    let mut groups: u32 = 0;
    for group in 0..GROUPS {
        if words::has(ws, GRANTS, group as usize * 64 + class) {
            groups |= 1u32 << group;
        }
    }
    groups
}
