// A state whose list is in rows, written as a text to a lent buffer.
#![tactic(auto)]

ghost use Rattle.std.specs.Prelude.{◌≡◌, ◌≤◌};
ghost use Rattle.rig.specs.Limits.{message_limit};
ghost use Rattle.list_rows.specs.State.{stored};
ghost use Rattle.save_storing.specs.Buffers.{in_buffer, written_with};

use list_rows::Rows;
use player_bytes::put_word;
use rig::{Rig, Tables};
use save_text::LONGEST;
use save_writing::put_state;
use shape_state::well_shaped;

// The code of writing, and the text's length.
#[derive(Clone, Copy)]
pub struct Saved {
    pub code: u64,
    pub length: usize,
}

// An inner call: the text of a state whose list got that code, at the front of the buffer.
pub fn write_rows(
    rig: Rig,
    tables: &Tables,
    list: &Rows,
    code: u64,
    count: usize,
    out: &mut [u8],
) -> Saved
    requires { code ≡ 0 → count ≤ message_limit }
    ensures { in_buffer result out.new ≡ written_with code (stored rig tables.now list.now count) out.old }
{
    if code != 0 {
        return refused(code);
    }
    if !well_shaped(rig, tables, list, count) {
        return refused(10);
    }
    let mut page = [0u8; LONGEST];
    let n = put_state(&mut page, rig, tables, list, count);
    if n > out.len() {
        return refused(15);
    }
    put_word(out, 0, &page[..n]);
    Saved { code: 0, length: n }
}

// A refusal: nothing is written.
fn refused(code: u64) -> Saved
    ensures { result ≡ record { code = code; length = 0 } }
{
    Saved { code, length: 0 }
}
