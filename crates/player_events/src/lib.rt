// The lines of events in a lent part of a text, played one after the other. The rig is a local of the loop, so that no event copies it.
#![tactic(auto)]

ghost use Rattle.std.specs.Prelude.{◌≡◌, false, ◌+◌, ◌≤◌, length};
ghost use Rattle.player_printing.specs.Printing.{step_line, page_length};
ghost use Rattle.player_bytes.specs.Wrote.{Wrote};
ghost use Rattle.player_text.specs.declared.Stage.TheVariants.{Events};
ghost use Rattle.player_text.specs.Calls.{PlayerFits};
ghost use Rattle.player_events.specs.Kinds.{same_kind};
ghost use Rattle.player_events.specs.Stretches.{player_at, Stops, LeavesStretch};

use event_at_site::step_at;
use event_sites::{actor, counted_on, place_of};
use list_rows::Rows;
use player_bytes::put_word;
use player_counts::{inside, waiting};
use player_next::next_line;
use player_printing::{PAGE_LENGTH, step_line};
use player_text::{Player, Stage, one_more, stop};
use rig::{Message, Mode, Rig, Site, Tables};
use rig_modes::{is_inside, is_resting, is_waiting};

// The player after a stretch of the text, the bytes of the text that are read, and the bytes of the output that are used.
#[derive(Clone, Copy)]
pub struct Stretch {
    pub player: Player,
    pub from: usize,
    pub at: usize,
}

// Whether two sites are of one kind: at rest, waiting or inside.
fn same_kind(a: Site, b: Site) -> bool
    ensures { result ≡ same_kind a.mode b.mode }
{
    match a.mode {
        Mode::Rest => is_resting(b),
        Mode::Waiting { .. } => is_waiting(b),
        Mode::Inside => is_inside(b),
    }
}

// An event's line goes to the output, behind its first `at` bytes; answers the place behind it.
fn print_step(
    out: &mut [u8],
    at: usize,
    step: u64,
    code: u64,
    inside: u64,
    waiting: u64,
    flying: u64,
) -> usize
    requires { at + page_length ≤ length out.old }
    ensures { Wrote (step_line step code inside waiting flying) at out.old out.new result × (result ≤ length out.old) }
{
    let mut page = [0u8; PAGE_LENGTH];
    let n = step_line(&mut page, step, code, inside, waiting, flying);
    put_word(out, at, &page[..n])
}

// The player p, among its events, with other places, another rig and another count of messages.
fn player_at(p: Player, line: u64, step: u64, rig: Rig, count: usize) -> Player
    ensures { result ≡ player_at p line step rig count }
{
    Player {
        stage: Stage::Events,
        line,
        step,
        rig,
        count,
        ..p
    }
}

// The run ends with 11; `from` is the place behind the line.
fn stop_here(p: Player, out: &mut [u8], at: usize, from: usize) -> Stretch
    requires { at + page_length ≤ length out.old }
    ensures { Stops p at from out.old out.new result }
{
    let mut page = [0u8; PAGE_LENGTH];
    let said = stop(p, &mut page, 11, one_more(p.line));
    let to = put_word(out, at, &page[..said.printed]);
    Stretch {
        player: said.player,
        from,
        at: to,
    }
}

// An inner call: plays the lines of events that end within the text, from `from` on, and prints them behind the first `at` bytes of the
// output, without a test of a state. It ends where no whole line is left, where the run has ended, or where the output has less room left than a page. `sent` is working
// room for its events, and nothing is promised of what is left there.
pub fn play_events(
    p: Player,
    tables: &mut Tables,
    list: &mut Rows,
    text: &[u8],
    from: usize,
    out: &mut [u8],
    at: usize,
) -> Stretch
    requires { PlayerFits p tables.old list.old × (p.stage ≡ Events) × (p.tested ≡ false) × (from ≤ length text.now) × (at ≤ length out.old) }
    ensures { LeavesStretch p tables list text.now from out at result }
{
    let mut sent = [[0; Message::FIELDS]; Rig::SENT];
    let mut rig = p.rig;
    let mut count = p.count;
    let mut step = p.step;
    let mut line = p.line;
    let mut now_inside = inside(rig);
    let mut now_waiting = waiting(rig);
    let mut read = from;
    let mut to = at;
    while PAGE_LENGTH <= out.len() - to {
        let Some(next) = next_line(text, read) else {
            break;
        };
        let Some(e) = next.event else {
            return stop_here(player_at(p, line, step, rig, count), out, to, next.end + 1);
        };
        let i = place_of(rig.size, actor(e));
        let site = rig.sites[i];
        let arbiter = rig.arbiters[i];
        let done = step_at(
            rig.size,
            rig.accepted,
            rig.sets[i],
            site,
            arbiter,
            tables,
            list,
            count,
            &mut sent,
            e,
        );
        rig.sites[i] = done.site;
        rig.arbiters[i] = done.arbiter;
        rig.accepted = counted_on(rig.accepted, done.code);
        count = done.count;
        if !same_kind(site, done.site) {
            now_inside = inside(rig);
            now_waiting = waiting(rig);
        }
        step = one_more(step);
        line = one_more(line);
        to = print_step(
            out,
            to,
            step,
            done.code,
            now_inside,
            now_waiting,
            count as u64,
        );
        read = next.end + 1;
    }
    Stretch {
        player: player_at(p, line, step, rig, count),
        from: read,
        at: to,
    }
}
