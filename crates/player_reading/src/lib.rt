// A part of a text, played: its lines, one after the other, and the bytes of the line that its end cuts.
#![tactic(auto)]

ghost use Rattle.std.specs.Prelude.{◌≤◌, length, take};
ghost use Rattle.player_grammar.specs.Grammar.{line_limit};
ghost use Rattle.player_text.specs.Calls.{PlayerFits};
ghost use Rattle.player_reading.specs.Reading.{LeavesOn, LeavesPart};

use list_rows::Rows;
use player_bytes::put_word;
use player_cuts::{LINE_ROOM, join_line};
use player_events::{Stretch, play_events};
use player_lines::line;
use player_printing::PAGE_LENGTH;
use player_text::{Player, Stage};
use rig::Tables;

// The player after a part, the bytes of the line that the part cut, the bytes of the part that are read, and those of the output that are used.
#[derive(Clone, Copy)]
pub struct PartRead {
    pub player: Player,
    pub line: [u8; LINE_ROOM],
    pub held: usize,
    pub from: usize,
    pub at: usize,
}

// Plays the lines of events from `from` on, if it is among the events and need not test each state.
fn play_on(
    p: Player,
    tables: &mut Tables,
    list: &mut Rows,
    given: &[u8],
    from: usize,
    out: &mut [u8],
    at: usize,
) -> Stretch
    requires { PlayerFits p tables.old list.old × (from ≤ length given.now) × (at ≤ length out.old) }
    ensures { LeavesOn p tables list given.now from out at result }
{
    match p.stage {
        Stage::Events => if p.tested {
            Stretch {
                player: p,
                from,
                at,
            }
        } else {
            play_events(p, tables, list, given, from, out, at)
        },
        _ => Stretch {
            player: p,
            from,
            at,
        },
    }
}

// An inner call: plays the bytes given, behind the first `held` bytes of the line. It reads all of them, or stops where the output has less room
// left than a page.
pub fn read_part(
    p: Player,
    tables: &mut Tables,
    list: &mut Rows,
    cut: [u8; LINE_ROOM],
    held: usize,
    given: &[u8],
    out: &mut [u8],
) -> PartRead
    requires { PlayerFits p tables.old list.old × (held ≤ line_limit) }
    ensures { LeavesPart p tables list (take held cut) given.now out result }
{
    let mut page = [0u8; PAGE_LENGTH];
    let mut q = p;
    let mut line_bytes = cut;
    let mut n = held;
    let mut from = 0;
    let mut at = 0;
    while from < given.len() {
        if out.len() - at < PAGE_LENGTH {
            break;
        }
        let j = join_line(line_bytes, n, given, from);
        line_bytes = j.line;
        n = j.held;
        from = j.from;
        if !j.whole {
            break;
        }
        let said = line(q, tables, list, &mut page, &line_bytes[..n]);
        at = put_word(out, at, &page[..said.printed]);
        n = 0;
        let r = play_on(said.player, tables, list, given, from, out, at);
        q = r.player;
        from = r.from;
        at = r.at;
    }
    PartRead {
        player: q,
        line: line_bytes,
        held: n,
        from,
        at,
    }
}
