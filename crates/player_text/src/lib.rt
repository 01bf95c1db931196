// What the player knows of its text, how it begins, and how it ends with a line `stop=`.
#![tactic(auto)]

ghost use Rattle.std.specs.Prelude.{◌≡◌};
ghost use Rattle.player_printing.specs.Printing.{stop_line, Printed};
ghost use Rattle.player_text.specs.Player.{counted, size_in, set_in, event_in};
ghost use Rattle.player_text.specs.Calls.{beginning, over};

use player_grammar::Line;
use player_printing::{Page, stop_line};
use rig::{Event, Rig};
use setup::resting;

// Which line comes next: `sites=`, a `set=`, an event, or none, since the run has ended.
#[derive(Clone, Copy)]
pub enum Stage {
    Size,
    Sets,
    Events,
    Over,
}

// What the player knows: the next line's kind, the lines read, the events played, N, how many sets were read, the sets, and the rig
// with how many messages are under way. The rig's tables and its list are lent to each call. Where `tested`, each event tests its state
// first, since it may be misshapen (10); no state of a run is.
#[derive(Clone, Copy)]
pub struct Player {
    pub stage: Stage,
    pub line: u64,
    pub step: u64,
    pub size: u64,
    pub given: u64,
    pub sets: [u64; Rig::SITES],
    pub rig: Rig,
    pub count: usize,
    pub tested: bool,
}

// The next player, and how many bytes of the page are to be written out.
#[derive(Clone, Copy)]
pub struct Said {
    pub player: Player,
    pub printed: usize,
}

// A place counted on, up to the largest number of 64 bits.
pub fn one_more(n: u64) -> u64
    ensures { result ≡ counted n }
{
    if n == u64::MAX { n } else { n + 1 }
}

// The number of a line `sites=`.
pub fn size_in(m: Option<Line>) -> Option<u64>
    ensures { result ≡ size_in m }
{
    match m? {
        Line::Sites(n) => Some(n),
        _ => None,
    }
}

// The set of a line `set=`.
pub fn set_in(m: Option<Line>) -> Option<u64>
    ensures { result ≡ set_in m }
{
    match m? {
        Line::Set(set) => Some(set),
        _ => None,
    }
}

// The event of a line.
pub fn event_in(m: Option<Line>) -> Option<Event>
    ensures { result ≡ event_in m }
{
    match m? {
        Line::Ask(s) => Some(Event::Ask(s)),
        Line::Leave(s) => Some(Event::Leave(s)),
        Line::Move(a, b) => Some(Event::Deliver(a, b)),
        Line::Sites(_) => None,
        Line::Set(_) => None,
    }
}

// The player before its first line.
pub fn begin() -> Player
    ensures { result ≡ beginning }
{
    Player {
        stage: Stage::Size,
        line: 0,
        step: 0,
        size: 0,
        given: 0,
        sets: [0; Rig::SITES],
        rig: resting(0, [0; Rig::SITES]),
        count: 0,
        tested: false,
    }
}

// The run ends with a code and a line.
pub fn stop(p: Player, page: &mut Page, code: u64, line: u64) -> Said
    ensures { (result.player ≡ over p) × Printed (stop_line code line) page.old page.new result.printed }
{
    Said {
        player: Player {
            stage: Stage::Over,
            ..p
        },
        printed: stop_line(page, code, line),
    }
}
