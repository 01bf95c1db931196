// One event on a rig, with its list in rows: the parts of the event's site are taken out of the rig, and stored.
#![tactic(auto)]

ghost use Rattle.std.specs.Prelude.{◌≡◌, true, ◌≤◌};
ghost use Rattle.rig.specs.Limits.{message_limit};
ghost use Rattle.model.specs.Shape.{well_shaped};
ghost use Rattle.model.specs.Event.{attempt_on, played};
ghost use Rattle.list_rows.specs.Rows.{ZeroPast};
ghost use Rattle.list_rows.specs.State.{stored, before, after};
ghost use Rattle.event_storing.specs.Outbox.{Sends};
ghost use Rattle.event_rows.specs.Tested.{tested_with};

use event_at_site::step_at;
use event_sites::{actor, counted_on, place_of};
use list_rows::{Outbox, Rows};
use rig::{Answer, Event, Message, Rig, Tables};
use shape_state::well_shaped;

// An inner call: an event on a well-shaped state whose rows past the count are zeros, without a test of either. Both hold of the next
// state of a run, so that a caller who alone has the state needs no tests. `out` is room for what is sent: no row of it is read
// before it is written.
pub fn step(
    mut rig: Rig,
    tables: &mut Tables,
    list: &mut Rows,
    out: &mut Outbox,
    count: usize,
    e: Event,
) -> Answer
    requires { (well_shaped (stored rig tables.old list.old count) ≡ true) × ZeroPast count list.old }
    ensures { (after result tables list ≡ played (before rig tables list count) e) × ZeroPast result.count list.new
        × Sends (attempt_on (before rig tables list count) e) out }
{
    let i = place_of(rig.size, actor(e));
    let done = step_at(
        rig.size,
        rig.accepted,
        rig.sets[i],
        rig.sites[i],
        rig.arbiters[i],
        tables,
        list,
        count,
        out,
        e,
    );
    rig.sites[i] = done.site;
    rig.arbiters[i] = done.arbiter;
    rig.accepted = counted_on(rig.accepted, done.code);
    Answer {
        code: done.code,
        rig,
        count: done.count,
    }
}

// An inner call: an event on any state whose list got that code and whose rows past the count are zeros: the code, where it is not 0, then
// 10 where the state is misshapen.
pub fn event(
    rig: Rig,
    tables: &mut Tables,
    list: &mut Rows,
    code: u64,
    count: usize,
    e: Event,
) -> Answer
    requires { (code ≡ 0 → count ≤ message_limit) × ZeroPast count list.old }
    ensures { (after result tables list ≡ tested_with code (before rig tables list count) e) × ZeroPast result.count list.new }
{
    if code != 0 {
        return Answer::refused(code, rig, count);
    }
    if !well_shaped(rig, tables, list, count) {
        return Answer::refused(10, rig, count);
    }
    let mut out = [[0; Message::FIELDS]; Rig::SENT];
    step(rig, tables, list, &mut out, count, e)
}
