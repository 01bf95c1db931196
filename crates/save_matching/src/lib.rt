// Whether bytes are the text of a state whose list is in rows.
#![tactic(auto)]

ghost use Rattle.std.specs.Prelude.{◌≡◌, ◌≤◌};
ghost use Rattle.rig.specs.Limits.{message_limit};
ghost use Rattle.list_rows.specs.State.{stored};
ghost use Rattle.save_text.specs.Text.{this_spelling};
ghost use Rattle.save_text.specs.Reading.{is_text_of};

use list_rows::Rows;
use player_bytes::same_bytes;
use rig::{Rig, Tables};
use save_text::LONGEST;
use save_writing::put_state;
use shape_state::well_shaped;

// An inner call: whether a state is well shaped and these bytes are its text.
pub fn is_text_of(text: &[u8], rig: Rig, tables: &Tables, list: &Rows, count: usize) -> bool
    requires { count ≤ message_limit }
    ensures { result ≡ is_text_of this_spelling text.now (stored rig tables.now list.now count) }
{
    if !well_shaped(rig, tables, list, count) {
        return false;
    }
    let mut page = [0u8; LONGEST];
    let n = put_state(&mut page, rig, tables, list, count);
    same_bytes(&page[..n], text)
}
