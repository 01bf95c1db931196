// The two public calls of the saved text: a state written to a lent buffer, and read into lent tables and a list that is lent as a slice of structs.
#![tactic(auto)]

ghost use Rattle.std.specs.Prelude.{◌≡◌};
ghost use Rattle.model.specs.Setup.{no_rig};
ghost use Rattle.model.specs.State.{stored};
ghost use Rattle.save_text.specs.Calls.{written, read_into};
ghost use Rattle.save_storing.specs.Buffers.{in_buffer};
ghost use Rattle.engine.specs.Lent.{before, after};
ghost use Rattle.save.specs.Start.{read_from};

use engine_parts::{blank_rows, list_code, read_count};
use list_copy::{rewrite, to_rows};
use rig::{Answer, Message, Rig, Tables};
use save_rows::read_rows;
use save_storing::{Saved, write_rows};

// Writes the text of a state at the front of a lent buffer: the code, and the text's length. The bytes behind it stay, and a refusal changes none.
pub fn write(rig: Rig, tables: &Tables, list: &[Message], count: usize, out: &mut [u8]) -> Saved
    ensures { in_buffer result out.new ≡ written (stored rig tables.now list.now count) out.old }
{
    let len = list.len();
    let code = list_code(count, len);
    let n = read_count(code, count);
    let mut rows = blank_rows();
    to_rows(list, n, &mut rows);
    write_rows(rig, tables, &rows, code, count, out)
}

// Reads a text into lent tables and a lent list: the code, the rig and the count of messages. A refusal answers a rig without sites, and changes
// nothing that was lent.
pub fn read(text: &[u8], tables: &mut Tables, list: &mut [Message]) -> Answer
    ensures { after result tables list ≡ read_into text.now (before no_rig tables list 0) }
{
    let len = list.len();
    let mut rows = blank_rows();
    let r = read_rows(text, len, tables, &mut rows);
    rewrite(list, read_from(r.code, len), &rows);
    r
}

// The place from which the list is written: the first one, and the list's end where the text is refused.
fn read_from(code: u64, len: usize) -> usize
    ensures { result ≡ read_from code len }
{
    if code != 0 {
        return len;
    }
    0
}
