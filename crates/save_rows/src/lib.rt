// A state whose list is in rows, read from a text.
#![tactic(auto)]

ghost use Rattle.std.specs.Prelude.{◌≡◌};
ghost use Rattle.list_rows.specs.Rows.{zero_rows};
ghost use Rattle.save_rows.specs.Rows.{ReadsRows};

use list_rows::Rows;
use rig::{Answer, Rig, Tables};
use save_matching::is_text_of;
use save_reading::{Given, read_lines};
use setup::resting;

// An inner call: what a text says, in the tables and in rows of zeros, for a list of `len` entries. No table is written before the text is judged.
pub fn read_rows(text: &[u8], len: usize, tables: &mut Tables, list: &mut Rows) -> Answer
    requires { list.old ≡ zero_rows }
    ensures { ReadsRows len text.now tables.old tables.new list.new result }
{
    let none = resting(0, [0; Rig::SITES]);
    if len != Rig::MESSAGES {
        return Answer::refused(13, none, 0);
    }
    let mut read = Rig::blank();
    let Some(Given { rig, count }) = read_lines(text, &mut read, list) else {
        return Answer::refused(14, none, 0);
    };
    if !is_text_of(text, rig, &read, list, count) {
        return Answer::refused(14, none, 0);
    }
    *tables = read;
    Answer {
        code: 0,
        rig,
        count,
    }
}
