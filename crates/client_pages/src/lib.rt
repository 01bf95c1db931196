// Callers of the calls that print a line, each on a page of spaces: each promise follows from the contracts of those calls alone.
#![tactic(auto)]

ghost use Rattle.std.specs.Prelude.{◌≡◌};
ghost use Rattle.player_printing.specs.Printing.{step_line, stop_line};
ghost use Rattle.player_text.specs.Player.{on_line, on_end};
ghost use Rattle.player_text.specs.Calls.{before, PlayerFits};
ghost use Rattle.player_state.specs.State.{known, cut_line};
ghost use Rattle.client_pages.specs.Spaced.{spaced, OnPage};

use list_rows::Rows;
use player_lines::line;
use player_playing::finish;
use player_printing::{PAGE_LENGTH, Page, step_line, stop_line};
use player_state::Playing;
use player_text::Player;
use rig::Tables;

// The player after a line, and the page with what it printed.
#[derive(Clone, Copy)]
pub struct LinePage {
    pub player: Player,
    pub page: Page,
}

// The line of an event.
pub fn step_page(step: u64, code: u64, inside: u64, waiting: u64, flying: u64) -> Page
    ensures { result ≡ spaced (step_line step code inside waiting flying) }
{
    let mut page = [b' '; PAGE_LENGTH];
    step_line(&mut page, step, code, inside, waiting, flying);
    page
}

// The line that ends a run.
pub fn stop_page(code: u64, line: u64) -> Page
    ensures { result ≡ spaced (stop_line code line) }
{
    let mut page = [b' '; PAGE_LENGTH];
    stop_line(&mut page, code, line);
    page
}

// An inner call: one line of the text.
pub fn line_page(p: Player, tables: &mut Tables, list: &mut Rows, bytes: &[u8]) -> LinePage
    requires { PlayerFits p tables.old list.old }
    ensures { OnPage (on_line (before p tables list) bytes.now) tables.new list.new result }
{
    let mut page = [b' '; PAGE_LENGTH];
    let said = line(p, tables, list, &mut page, bytes);
    let player = said.player;
    LinePage { player, page }
}

// The end of the input.
pub fn end_page(s: Playing) -> Page
    ensures { result ≡ spaced (on_end (known s) (cut_line s)) }
{
    let mut page = [b' '; PAGE_LENGTH];
    finish(s, &mut page);
    page
}
