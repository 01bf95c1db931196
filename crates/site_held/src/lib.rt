// Whether a site holds the permissions of all its members.
#![tactic(auto)]

ghost use Rattle.std.specs.Prelude.{◌≡◌, true, not, ◌≤◌, eqb};
ghost use Rattle.rig.specs.Limits.{site_limit, SiteNumber};
ghost use Rattle.model.specs.Sets.{member};
ghost use Rattle.model.specs.Tables.{at};
ghost use Rattle.model.specs.Site.{all_held};

use rig::{Desk, Rig};
use rig_members::each_member;

// One turn of `all_held`: whether j, a member of the set, is held.
fn member_held(set: u64, held: &[u64; Rig::SITES], j: u64) -> bool
    requires { (member set j ≡ true) × SiteNumber j }
    ensures { result ≡ not (eqb (at 0 held.now j) 0) }
{
    held[(j - 1) as usize] != 0
}

// An inner call: all members are held.
pub fn all_held(d: Desk) -> bool
    requires { d.size ≤ site_limit }
    ensures { result ≡ all_held d }
{
    for j in each_member(d.size, d.members) {
        if !member_held(d.members, &d.held, j) {
            return false;
        }
    }
    true
}
