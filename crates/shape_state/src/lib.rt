// Whether a stored state is well shaped, else code 10 of document 01. `well_shaped` answers for every rig, tables and messages: a size
// past the limit, a site outside the tables, a kind that no message has.
#![tactic(auto)]

ghost use Rattle.std.specs.Prelude.{◌≡◌, ◌≤◌, take};
ghost use Rattle.std.specs.List.{list_all};
ghost use Rattle.rig.specs.Limits.{message_limit};
ghost use Rattle.list_rows.specs.Rows.{message_of};
ghost use Rattle.list_rows.specs.State.{stored};
ghost use Rattle.model.specs.Shape.{message_shaped, well_shaped};

use list_rows::{Row, Rows, message};
use rig::{Rig, Tables};
use shape_messages::message_shaped;
use shape_rig::rig_shaped;
use shape_tables::tables_shaped;

// A row's message.
fn row_shaped(size: u64, sets: &[u64; Rig::SITES], r: &Row) -> bool
    ensures { result ≡ message_shaped size sets.now (message_of r.now) }
{
    message_shaped(size, sets, message(*r))
}

// Each of the first `count` messages.
fn messages_shaped(size: u64, sets: &[u64; Rig::SITES], list: &[Row], count: usize) -> bool
    ensures { result ≡ list_all (λ r. message_shaped size sets.now (message_of r)) (take count list.now) }
{
    list.iter().take(count).all(|r| row_shaped(size, sets, r))
}

// An inner call: the rig, its tables, and the messages under way, which are at most 1,024.
#[tactic(auto, using(crate::proofs::Messages::well_shaped_rows), unfolding(model::specs::Shape::tables_shaped))]
pub fn well_shaped(rig: Rig, tables: &Tables, list: &Rows, count: usize) -> bool
    requires { count ≤ message_limit }
    ensures { result ≡ well_shaped (stored rig tables.now list.now count) }
{
    rig_shaped(rig)
        && tables_shaped(&rig.sets, tables)
        && messages_shaped(rig.size, &rig.sets, list, count)
}
