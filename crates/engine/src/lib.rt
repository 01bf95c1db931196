// The engine's public call: one event, on a list of messages that is lent as a slice of structs.
#![tactic(auto)]

ghost use Rattle.std.specs.Prelude.{◌≡◌};
ghost use Rattle.model.specs.Event.{event};
ghost use Rattle.model.specs.Run.{KeepsRun};
ghost use Rattle.engine.specs.Lent.{before, after};

use engine_parts::{blank_rows, changed_from, list_code, read_count};
use event_sites::{receiver, sender};
use list_copy::{rewrite, to_rows};
use list_lent::first;
use rig::{Answer, Event, Message, Rig, Tables};

// One event, on any state at all: the code of document 01, and the next state. On a state of a run it is the next one of that run, and
// demand 3 holds of it.
pub fn event(rig: Rig, tables: &mut Tables, list: &mut [Message], count: usize, e: Event) -> Answer
    ensures { (after result tables list ≡ event (before rig tables list count) e) × KeepsRun (before rig tables list count) e (after result tables list).next }
{
    let len = list.len();
    let code = list_code(count, len);
    let n = read_count(code, count);
    let found = first(list, n, sender(e), receiver(e));
    let mut rows = blank_rows();
    to_rows(list, n, &mut rows);
    let r = event_rows::event(rig, tables, &mut rows, code, count, e);
    rewrite(list, changed_from(r.code, found, count, len), &rows);
    r
}
