// The lines that the player prints, as bytes at the start of a page that the caller lends.
#![tactic(auto)]

ghost use Rattle.player_printing.specs.Printing.{step_line, stop_line, Printed};

use player_bytes::{put_field, put_word};

// A page holds the longest line: with five numbers of 20 digits it has 137 bytes.
pub const PAGE_LENGTH: usize = 160;

pub type Page = [u8; PAGE_LENGTH];

// The line of an event; answers its length.
pub fn step_line(
    page: &mut Page,
    step: u64,
    code: u64,
    inside: u64,
    waiting: u64,
    flying: u64,
) -> usize
    ensures { Printed (step_line step code inside waiting flying) page.old page.new result }
{
    let after_step = put_field(page, 0, b"step=", step);
    let after_code = put_field(page, after_step, b" code=", code);
    let after_inside = put_field(page, after_code, b" inside=", inside);
    let after_waiting = put_field(page, after_inside, b" waiting=", waiting);
    let after_flying = put_field(page, after_waiting, b" flying=", flying);
    put_word(page, after_flying, b"\n")
}

// The line that ends a run; answers its length.
pub fn stop_line(page: &mut Page, code: u64, line: u64) -> usize
    ensures { Printed (stop_line code line) page.old page.new result }
{
    let after_code = put_field(page, 0, b"stop=", code);
    let after_line = put_field(page, after_code, b" line=", line);
    put_word(page, after_line, b"\n")
}
