// The list of messages copied into rows of plain numbers, and rewritten from them.
#![tactic(auto)]

ghost use Rattle.std.specs.Prelude.{◌≡◌, ◌⊎◌, map, ◌<◌, ◌≤◌, ◌-◌, length, drop};
ghost use Rattle.std.proofs.Math.Seq.{paste};
ghost use Rattle.list_rows.specs.Rows.{row_of, message_of};

use list_lent::append;
use list_rows::{Row, message, row};
use rig::Message;

// An inner call: the first n messages become the first n rows.
pub fn to_rows(list: &[Message], n: usize, rows: &mut [Row])
    requires { (n ≤ length list.now) × (n ≤ length rows.old) }
    ensures { rows.new ≡ paste rows.old 0 (map row_of list.now) n }
{
    for (i, m) in list[..n].iter().enumerate() {
        rows[i] = row(*m);
    }
}

// Each message becomes the one of its row, put behind those before it.
fn from_rows(list: &mut [Message], rows: &[Row])
    requires { length list.old ≡ length rows.now }
    ensures { list.new ≡ map message_of rows.now }
{
    for (i, r) in rows.iter().enumerate() {
        append(list, i, message(*r));
    }
}

// An inner call: from a place on, each message becomes the one of its row. Nothing is written where that place is the list's end.
pub fn rewrite(list: &mut [Message], from: usize, rows: &[Row])
    requires { (from ≤ length list.old) × ((from ≡ length list.old) ⊎ (length list.old ≡ length rows.now)) }
    ensures { list.new ≡ paste list.old from (drop from (map message_of rows.now)) (length list.old - from) }
{
    if from < list.len() {
        from_rows(&mut list[from..], &rows[from..]);
    }
}
