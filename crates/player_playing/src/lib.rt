// A part of a text played, and the end of the input.
#![tactic(auto)]

ghost use Rattle.std.specs.Prelude.{min, ◌≡◌};
ghost use Rattle.player_text.specs.Player.{on_end};
ghost use Rattle.player_printing.specs.Printing.{Printed};
ghost use Rattle.player_state.specs.State.{line_room, known, cut_line, PlayingFits};
ghost use Rattle.player_playing.specs.Played.{LeavesPlayed, Continues};

use player_cuts::LINE_ROOM;
use player_printing::Page;
use player_reading::read_part;
use player_state::{Playing, held_of, line_of, list_of, player_of, state_of, tables_of};

// The player after a part of a text, the bytes of the part that it read, and those of the output that it wrote.
#[derive(Clone, Copy)]
pub struct Played {
    pub playing: Playing,
    pub taken: usize,
    pub written: usize,
}

// Plays a part of a text. It reads all of it, or stops where the output has less room left than a page: with less from the start it may read
// nothing. The state is as `begin`, `going_on` or an earlier part left it; nobody else makes one.
pub fn part(s: Playing, given: &[u8], out: &mut [u8]) -> Played
    requires { PlayingFits s }
    ensures leaves_played { LeavesPlayed s given.now out result }
    ensures continues { Continues s given.now out result }
{
    let mut tables = tables_of(s);
    let mut list = list_of(s);
    let r = read_part(
        player_of(s),
        &mut tables,
        &mut list,
        line_of(s),
        held_of(s),
        given,
        out,
    );
    let playing = state_of(r.player, tables, list, r.line, r.held);
    Played {
        playing,
        taken: r.from,
        written: r.at,
    }
}

// As many bytes as are held, and no more than there is room for. Every state that `begin`, `going_on` or `part` leaves holds fewer.
fn at_most_room(held: usize) -> usize
    ensures { result ≡ min held line_room }
{
    held.min(LINE_ROOM)
}

// The end of the input; answers how many bytes of the page are to be written out.
pub fn finish(s: Playing, page: &mut Page) -> usize
    ensures { Printed (on_end (known s) (cut_line s)) page.old page.new result }
{
    let line = line_of(s);
    let held = at_most_room(held_of(s));
    player_lines::finish(player_of(s), page, &line[..held])
}
