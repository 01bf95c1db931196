// What a site does when it yields: one member, or every one that it must.
#![tactic(auto)]

ghost use Rattle.std.specs.Prelude.{◌<◌, ◌≤◌, ◌+◌, length};
ghost use Rattle.model.specs.Site.{failed_set, yielded, yielded_up_to};
ghost use Rattle.event_effects.specs.Effects.{CarriesOut};
ghost use Rattle.rig.specs.Limits.{site_limit, SiteNumber};

use event_effects::Acted;
use list_rows::Row;
use rig::{Desk, Message};
use rig_members::each_member;
use site_due_yields::yield_if;

// An inner call: the site yields arbiter j.
pub fn yield_member(d: Desk, j: u64, out: &mut [Row], count: usize) -> Acted
    requires { SiteNumber j × (count < length out.old) }
    ensures { CarriesOut (yielded d j) count out.old out.new result }
{
    let i = (j - 1) as usize;
    let n = list_rows::append(out, count, Message::yielding(d.number, j, d.held[i]));
    let mut e = site_entries::failed_set(d);
    e.held[i] = 0;
    e.heir[i] = 0;
    e.inquired[i] = 0;
    Acted { desk: e, count: n }
}

// An inner call: failed is set, and every held member with a remembered inquire is yielded, ascending.
pub fn yield_members(d: Desk, out: &mut [Row], count: usize) -> Acted
    requires { (d.size ≤ site_limit) × (count + site_limit ≤ length out.old) }
    ensures { CarriesOut (yielded_up_to (failed_set d) d.size) count out.old out.new result }
{
    let mut held = d.held;
    let mut heir = d.heir;
    let mut inquired = d.inquired;
    let mut n = count;
    for j in each_member(d.size, d.members) {
        n = yield_if(
            d.number,
            d.members,
            &mut held,
            &mut heir,
            &mut inquired,
            (j - 1) as usize,
            out,
            n,
        );
    }
    Acted {
        desk: Desk {
            held,
            heir,
            inquired,
            ..site_entries::failed_set(d)
        },
        count: n,
    }
}
