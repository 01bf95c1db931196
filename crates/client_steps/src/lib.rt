// Callers of inner calls that play events: each promise follows from the contracts of those calls alone.
#![tactic(auto)]

ghost use Rattle.std.specs.Prelude.{◌≡◌, true, false, replicate};
ghost use Rattle.rig.specs.Limits.{sent_limit};
ghost use Rattle.model.specs.Shape.{well_shaped};
ghost use Rattle.model.specs.Event.{attempt_on};
ghost use Rattle.list_rows.specs.Rows.{zero_row, ZeroPast};
ghost use Rattle.list_rows.specs.State.{stored, before};
ghost use Rattle.event_storing.specs.Outbox.{outbox_after};
ghost use Rattle.player_text.specs.declared.Stage.TheVariants.{Events};
ghost use Rattle.player_text.specs.Calls.{PlayerFits};
ghost use Rattle.client_steps.specs.Ends.{EndsAt};

use event_rows::step;
use list_rows::{Outbox, Rows};
use player_events::{Stretch, play_events};
use player_printing::PAGE_LENGTH;
use player_text::{Player, Stage};
use rig::{Event, Message, Rig, Tables};

// A stretch of events, and whether it ended for want of a whole line.
#[derive(Clone, Copy)]
pub struct Ending {
    pub stretch: Stretch,
    pub done: bool,
}

// An inner call: plays one event, and answers the rows that it sends, or would send but for a limit, with zeros behind them.
pub fn sent_by(rig: Rig, tables: &mut Tables, list: &mut Rows, count: usize, e: Event) -> Outbox
    requires { (well_shaped (stored rig tables.old list.old count) ≡ true) × ZeroPast count list.old }
    ensures { result ≡ outbox_after (attempt_on (before rig tables list count) e) (replicate sent_limit zero_row) }
{
    let mut out = [[0; Message::FIELDS]; Rig::SENT];
    step(rig, tables, list, &mut out, count, e);
    out
}

// An inner call: plays a stretch of events, and says why it ended.
pub fn play_stretch(
    p: Player,
    tables: &mut Tables,
    list: &mut Rows,
    text: &[u8],
    out: &mut [u8],
) -> Ending
    requires { PlayerFits p tables.old list.old × (p.stage ≡ Events) × (p.tested ≡ false) }
    ensures { EndsAt text.now out.old result }
{
    let stretch = play_events(p, tables, list, text, 0, out, 0);
    let at = stretch.at;
    let player = stretch.player;
    let stage = player.stage;
    match stage {
        Stage::Over => Ending {
            stretch,
            done: false,
        },
        _ => Ending {
            stretch,
            done: PAGE_LENGTH <= out.len() - at,
        },
    }
}
