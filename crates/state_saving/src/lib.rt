// What the program `state` prints at the end of its input: a stop line, or the saved text of the player's state.
#![tactic(auto)]

ghost use Rattle.list_rows.specs.State.{stored};
ghost use Rattle.player_state.specs.State.{known, cut_line};
ghost use Rattle.player_printing.specs.Printing.{Printed};
ghost use Rattle.state_text.specs.State.{stop_text, saved_text, at_end};

use list_rows::Rows;
use player_bytes::{put_field, put_word};
use player_playing::finish;
use player_printing::PAGE_LENGTH;
use player_state::{Playing, list_of, player_of, tables_of};
use rig::{Rig, Tables};
use save_text::TextPage;
use save_writing::put_state;
use shape_state::well_shaped;

// What is printed at the end of the input, where the run has not ended; answers its length.
pub fn save_end(s: Playing, page: &mut TextPage) -> usize
    ensures { Printed (at_end (known s) (cut_line s)) page.old page.new result }
{
    let mut stop = [0u8; PAGE_LENGTH];
    let n = finish(s, &mut stop);
    if n > 0 {
        return put_word(page, 0, &stop[..n]);
    }
    let player = player_of(s);
    put_saved(page, player.rig, &tables_of(s), &list_of(s), player.count)
}

// The saved text of a state, or the stop of a misshapen one; answers its length.
fn put_saved(page: &mut TextPage, rig: Rig, tables: &Tables, list: &Rows, count: usize) -> usize
    ensures { Printed (saved_text (stored rig tables.now list.now count)) page.old page.new result }
{
    if count > Rig::MESSAGES {
        return put_stop(page, 10);
    }
    if !well_shaped(rig, tables, list, count) {
        return put_stop(page, 10);
    }
    put_state(page, rig, tables, list, count)
}

// A line `stop=` with a code alone; answers its length.
pub fn put_stop(page: &mut TextPage, code: u64) -> usize
    ensures { Printed (stop_text code) page.old page.new result }
{
    let end = put_field(page, 0, b"stop=", code);
    put_word(page, end, b"\n")
}
