// Callers of the engine's public call and of the lent list, each proved from their contracts alone: a site asks; a request is put into a list.
#![tactic(auto)]

ghost use Rattle.std.specs.Prelude.{◌≡◌, ◌+◌, ◌<◌, length, set};
ghost use Rattle.rig.specs.Messages.{request};
ghost use Rattle.model.specs.Run.{OfRun, Sound};
ghost use Rattle.engine.specs.Lent.{before, after};
ghost use Rattle.client_event.specs.Asked.{ask_answered, Holds};

use rig::{Answer, Event, Message, Rig, Tables};

// The code, the rig, the four tables, the list and the count of document 01, each by itself; and demand 3 of a state of a run.
pub fn ask(rig: Rig, tables: &mut Tables, list: &mut [Message], count: usize, s: u64) -> Answer
    ensures { (result.code ≡ (ask_answered rig tables list count s).code)
        × (result.rig ≡ (ask_answered rig tables list count s).next.tables.rig)
        × Holds tables.new (ask_answered rig tables list count s).next.tables
        × (list.new ≡ (ask_answered rig tables list count s).next.list)
        × (result.count ≡ (ask_answered rig tables list count s).next.count)
        × (OfRun (before rig tables list count) → Sound (after result tables list).next) }
{
    engine::event(rig, tables, list, count, Event::Ask(s))
}

// An inner call: a request put behind the first `count` messages, by the thin function of the lent list.
pub fn with_request(list: &mut [Message], count: usize, from: u64, to: u64, seq: u64) -> usize
    requires { count < length list.old }
    ensures { (result ≡ count + 1) × (list.new ≡ set list.old count (request from to seq)) }
{
    list_lent::append(list, count, Message::request(from, to, seq))
}
