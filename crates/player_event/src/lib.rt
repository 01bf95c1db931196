// One event of the player's text: played, and its line printed.
#![tactic(auto)]

ghost use Rattle.std.specs.Prelude.{◌≡◌};
ghost use Rattle.std.specs.Prelude.{Some};
ghost use Rattle.model.specs.Event.{event};
ghost use Rattle.list_rows.specs.Rows.{ZeroPast};
ghost use Rattle.list_rows.specs.State.{stored, before as state_before, after};
ghost use Rattle.player_text.specs.declared.Stage.TheVariants.{Events};
ghost use Rattle.player_text.specs.Player.{on_event};
ghost use Rattle.player_text.specs.Calls.{before, FitsEvents, HoldsAt, Gives};

use event_rows::{event, step};
use list_rows::Rows;
use player_counts::{inside, waiting};
use player_printing::{Page, step_line};
use player_text::{Player, Said, Stage, one_more};
use rig::{Answer, Event, Message, Rig, Tables};

// One event, with a test of the state where it may be misshapen.
fn next_state(
    tested: bool,
    rig: Rig,
    tables: &mut Tables,
    list: &mut Rows,
    count: usize,
    e: Event,
) -> Answer
    requires { FitsEvents tested (stored rig tables.old list.old count) × ZeroPast count list.old }
    ensures { (after result tables list ≡ event (state_before rig tables list count) e) × ZeroPast result.count list.new }
{
    if tested {
        return event(rig, tables, list, 0, count, e);
    }
    let mut out = [[0; Message::FIELDS]; Rig::SENT];
    step(rig, tables, list, &mut out, count, e)
}

// An inner call: one event of the text is played, and its line printed.
pub fn play_event(
    p: Player,
    tables: &mut Tables,
    list: &mut Rows,
    page: &mut Page,
    e: Event,
) -> Said
    requires { HoldsAt Events p tables.old list.old }
    ensures { Gives (on_event (before p tables list) (Some e)) result tables list page }
{
    let r = next_state(p.tested, p.rig, tables, list, p.count, e);
    let place = one_more(p.step);
    let printed = step_line(
        page,
        place,
        r.code,
        inside(r.rig),
        waiting(r.rig),
        r.count as u64,
    );
    let player = Player {
        stage: Stage::Events,
        line: one_more(p.line),
        step: place,
        rig: r.rig,
        count: r.count,
        ..p
    };
    Said { player, printed }
}
