// What a site does when it leaves.
#![tactic(auto)]

ghost use Rattle.std.specs.Prelude.{◌≤◌, ◌+◌, true, ◌≡◌, length};
ghost use Rattle.rig.specs.Limits.{number_limit, SiteNumber};
ghost use Rattle.model.specs.Desk.{held_for, heir_for};
ghost use Rattle.model.specs.Leave.{hand_on, hand_ons, left};
ghost use Rattle.model.specs.Sets.{member};
ghost use Rattle.list_rows.specs.Rows.{Appends};
ghost use Rattle.event_effects.specs.Effects.{CarriesOut};
ghost use Rattle.site_leaves.specs.Needs.{LeaveFits};
ghost use Rattle.site_leaves.specs.Turns.{hand_on_if};

use event_effects::Acted;
use list_rows::Row;
use rig::{Desk, Message, Mode, Site};
use rig_members::each_member;
use site_entries::cleared;

// What site `number` sends on for arbiter j, held with number g, with heir k (0 none).
fn hand_on(number: u64, j: u64, k: u64, g: u64, out: &mut [Row], count: usize) -> usize
    requires { (g ≤ number_limit) × (count + 2 ≤ length out.old) }
    ensures { Appends (hand_on number j k g) count out.old out.new result }
{
    if k == 0 {
        return list_rows::append(out, count, Message::release(number, j, 0, g));
    }
    let n = list_rows::append(out, count, Message::reply(number, k, j, g + 1));
    list_rows::append(out, n, Message::release(number, j, k, g))
}

// One turn of the leave: what is sent on for j, a member of the set, if it is held.
fn hand_on_member(d: &Desk, j: u64, out: &mut [Row], count: usize) -> usize
    requires { (member d.now.members j ≡ true) × SiteNumber j × (held_for d.now j ≤ number_limit) × (count + 2 ≤ length out.old) }
    ensures { Appends (hand_on_if d.now.number j (heir_for d.now j) (held_for d.now j)) count out.old out.new result }
{
    let i = (j - 1) as usize;
    let g = d.held[i];
    if g == 0 {
        return count;
    }
    hand_on(d.number, j, d.heir[i], g, out, count)
}

// What is sent on for each member held, ascending.
fn hand_on_members(d: Desk, out: &mut [Row], count: usize) -> usize
    requires { LeaveFits d count out.old }
    ensures { Appends (hand_ons d d.size) count out.old out.new result }
{
    let mut n = count;
    for j in each_member(d.size, d.members) {
        n = hand_on_member(&d, j, out, n);
    }
    n
}

// An inner call: the site leaves.
#[tactic(auto, unfolding(model::specs::Leave::left))]
pub fn leave(d: Desk, out: &mut [Row], count: usize) -> Acted
    requires { LeaveFits d count out.old }
    ensures { CarriesOut (left d) count out.old out.new result }
{
    let sent = hand_on_members(d, out, count);
    let site = Site {
        mode: Mode::Rest,
        ..d.site
    };
    Acted {
        desk: cleared(d, site),
        count: sent,
    }
}
