// The player: reads a text of events line by line, and writes the lines that document 01 fixes.
#![tactic(auto)]

ghost use Rattle.player_text.specs.declared.Stage.TheVariants.{Events};
ghost use Rattle.player_text.specs.Player.{event_in, on_event, on_line};
ghost use Rattle.player_text.specs.Calls.{before, HoldsAt, PlayerFits, Gives, Ended};

use list_rows::Rows;
use player_event::play_event;
use player_grammar::{Line, meaning};
use player_printing::{Page, stop_line};
use player_setup::{on_set, on_size};
use player_text::{Player, Said, Stage, event_in, one_more, stop};
use rig::Tables;

// A line behind the sets.
fn on_event(
    p: Player,
    tables: &mut Tables,
    list: &mut Rows,
    page: &mut Page,
    m: Option<Line>,
) -> Said
    requires { HoldsAt Events p tables.old list.old }
    ensures { Gives (on_event (before p tables list) (event_in m)) result tables list page }
{
    let Some(e) = event_in(m) else {
        return stop(p, page, 11, one_more(p.line));
    };
    play_event(p, tables, list, page, e)
}

// An inner call: one line, its bytes before byte 10. The player and what it is lent are as `begin` or an earlier line left them.
pub fn line(p: Player, tables: &mut Tables, list: &mut Rows, page: &mut Page, bytes: &[u8]) -> Said
    requires { PlayerFits p tables.old list.old }
    ensures { Gives (on_line (before p tables list) bytes.now) result tables list page }
{
    let m = meaning(bytes);
    let stage = p.stage;
    match stage {
        Stage::Size => on_size(p, page, m),
        Stage::Sets => on_set(p, page, m),
        Stage::Events => on_event(p, tables, list, page, m),
        Stage::Over => Said {
            player: p,
            printed: 0,
        },
    }
}

// The end of the input, with the bytes behind the last byte 10; answers how many bytes of the page are to be written out.
pub fn finish(p: Player, page: &mut Page, rest: &[u8]) -> usize
    ensures { Ended p rest.now page.old page.new result }
{
    let place = one_more(p.line);
    let stage = p.stage;
    match stage {
        Stage::Size => stop_line(page, 11, place),
        Stage::Sets => stop_line(page, 11, place),
        Stage::Events => if rest.len() > 0 {
            stop_line(page, 11, place)
        } else {
            0
        },
        Stage::Over => 0,
    }
}
