// The printed example of document 01, on the engine: its 13 events in turn, and a line for each.
#![tactic(auto)]

ghost use Rattle.std.specs.Prelude.{ℕ, ◌<◌, ◌≤◌, List};
ghost use Rattle.model.specs.Run.{StartsRun, inside_count};

use player_counts::{inside, waiting};
use player_printing::{PAGE_LENGTH, step_line};
use rig::{Answer, Event, Message, Rig};
use std::io;

const EVENTS: [Event; 13] = [
    Event::Ask(1),
    Event::Deliver(1, 1),
    Event::Deliver(1, 1),
    Event::Ask(2),
    Event::Deliver(2, 1),
    Event::Deliver(1, 1),
    Event::Leave(1),
    Event::Deliver(1, 2),
    Event::Deliver(1, 2),
    Event::Leave(2),
    Event::Deliver(2, 1),
    Event::Deliver(1, 1),
    Event::Deliver(1, 1),
];

// Sites 1 and 2. The request set of each is site 1 alone: bit 0. These sets pass; were they refused, nothing would be played.
fn main(rt: HostRuntime) -> io::Result<()> {
    let mut sets = [0; Rig::SITES];
    sets[0] = 1;
    sets[1] = 1;
    match setup::setup(2, &sets) {
        Ok(rig) => play(&rt, rig),
        Err(_) => Ok(()),
    }
}

// Plays the events on a fresh rig, one that starts a run: the first with nothing under way, each later one with what the one before it left.
fn play(rt: &impl Print, fresh: Rig) -> io::Result<()>
    requires { (n : ℕ) × (sets : List ℕ) × StartsRun n sets fresh }
{
    let mut rig = fresh;
    let mut tables = Rig::blank();
    let mut list = [Message {
        kind: 0,
        from: 0,
        to: 0,
        about: 0,
        number: 0,
    }; Rig::MESSAGES];
    let mut count = 0;
    for (i, event) in EVENTS.iter().enumerate() {
        let r = engine::event(rig, &mut tables, &mut list, count, *event);
        print_line(rt, i as u64 + 1, r)?;
        rig = r.rig;
        count = r.count;
    }
    Ok(())
}

// As `step=1 code=0 inside=0 waiting=1 flying=1`. A line names one site inside, so no two may be: the call in `play` is proved to keep to it.
fn print_line(rt: &impl Print, step: u64, r: Answer) -> io::Result<()>
    requires { inside_count r.rig ≤ 1 }
{
    let mut page = [0; PAGE_LENGTH];
    let n = step_line(
        &mut page,
        step,
        r.code,
        inside(r.rig),
        waiting(r.rig),
        r.count as u64,
    );
    rt.write_all(&page[..n])
}
