// The entries of a row at the members of a set as the numbers of a line, and back.
#![tactic(auto)]

ghost use Rattle.std.specs.Prelude.{◌+◌, ◌^◌, ◌<◌, cond, ◌≡◌};
ghost use Rattle.rig.specs.Limits.{site_limit};
ghost use Rattle.model.specs.Sets.{member, set_of};
ghost use Rattle.model.specs.State.{has_member};
ghost use Rattle.rig_members.specs.Walk.{members_up_to};
ghost use Rattle.save_fields.specs.Values.{value_of};
ghost use Rattle.save_entries.specs.Entries.{entries, row_from};

use rig::Rig;
use rig_members::each_member;
use rig_reads::is_member;
use save_fields::{Numbers, Value};

// The entries of a row at the members of a set, ascending.
pub fn entries_value(set: u64, row: &Numbers) -> Value
    ensures { result ≡ value_of (entries (member set) row.now) }
{
    let mut numbers = [0; Rig::SITES];
    let mut count = 0;
    for j in each_member(Rig::SITES as u64, set) {
        numbers[count] = row[(j - 1) as usize];
        count = count + 1;
    }
    Value { numbers, count }
}

// A row that has at each site the site's number.
const SITE_NUMBERS: Numbers = [
    1, 2, 3, 4, 5, 6, 7, 8, 9, 10, 11, 12, 13, 14, 15, 16, 17, 18, 19, 20, 21, 22, 23, 24, 25, 26,
    27, 28, 29, 30, 31,
];

// The members of a set, ascending.
pub fn members_value(set: u64) -> Value
    ensures { result ≡ value_of (members_up_to set site_limit) }
{
    entries_value(set, &SITE_NUMBERS)
}

// The row whose entries at the members of a set are given, ascending; 0 at every other site.
pub fn row_from(set: u64, ns: &Numbers) -> Numbers
    ensures { result ≡ row_from (member set) ns.now }
{
    let mut row = [0; Rig::SITES];
    let mut next = 0;
    for j in each_member(Rig::SITES as u64, set) {
        row[(j - 1) as usize] = ns[next];
        next = next + 1;
    }
    row
}

// A set with site i + 1, if it is one of those that are asked for.
fn with_site(set: u64, i: u64, here: bool) -> u64
    requires { (i < site_limit) × (set < 2 ^ i) }
    ensures { result ≡ set + cond here (2 ^ i) 0 }
{
    if here { set + (1 << i) } else { set }
}

// The set of the sites that have arbiter j in their sets.
pub fn askers(sets: &Numbers, j: u64) -> u64
    ensures { result ≡ set_of (λ k. has_member sets.now k j) site_limit }
{
    let mut set = 0;
    for (i, s) in sets.iter().enumerate() {
        set = with_site(set, i as u64, is_member(*s, j));
    }
    set
}
