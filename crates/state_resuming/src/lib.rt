// A player that goes on from a saved text.
#![tactic(auto)]

ghost use Rattle.std.specs.Prelude.{◌≡◌};
ghost use Rattle.model_shaped.specs.Kept.{has_granted, all_granted};
ghost use Rattle.player_state.specs.State.{PlayingFits};
ghost use Rattle.save_text.specs.Reading.{read_text};
ghost use Rattle.state_resuming.specs.Resuming.{Resumes};

use engine_parts::blank_rows;
use player_state::{Playing, begin, going_on};
use rig::{Arbiter, Rig};
use save_rows::read_rows;

// The code of reading, and the player: before its first event, or where the text is none, before its first line.
#[derive(Clone, Copy)]
pub struct Resumption {
    pub code: u64,
    pub playing: Playing,
}

// The player that goes on from a saved text; 14 where the text is none. Each event's state is tested where an arbiter has a holder and has never granted, since such a
// state may become misshapen.
pub fn resume(text: &[u8]) -> Resumption
    ensures resumes { Resumes (read_text text.now) result }
    ensures playing_fits { PlayingFits result.playing }
{
    let mut tables = Rig::blank();
    let mut list = blank_rows();
    let read = read_rows(text, Rig::MESSAGES, &mut tables, &mut list);
    let rig = read.rig;
    if read.code != 0 {
        let first = begin();
        return Resumption {
            code: read.code,
            playing: first,
        };
    }
    let tested = !all_granted(rig);
    let playing = going_on(rig, &tables, &list, read.count, tested);
    Resumption { code: 0, playing }
}

// Whether every arbiter that has a holder has granted.
fn all_granted(rig: Rig) -> bool
    ensures { result ≡ all_granted rig }
{
    rig.arbiters.iter().all(|arbiter| has_granted(*arbiter))
}

// An arbiter without a holder, or one that has granted.
fn has_granted(a: Arbiter) -> bool
    ensures { result ≡ has_granted a }
{
    a.holder == 0 || a.grant >= 1
}
