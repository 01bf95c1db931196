// A message in plain numbers: a row is kind, from, to, about, number.
#![tactic(auto)]

ghost use Rattle.std.specs.Prelude.{◌≡◌, [], ◌∷◌, ◌<◌, ◌+◌, length, set};
ghost use Rattle.list_rows.specs.Rows.{row_of, message_of, Appends};

use rig::{Message, Rig};

pub type Row = [u64; Message::FIELDS];

// The list of messages under way, in rows.
pub type Rows = [Row; Rig::MESSAGES];

// Room for the messages that one event sends.
pub type Outbox = [Row; Rig::SENT];

pub fn row(m: Message) -> Row
    ensures { result ≡ row_of m }
{
    [m.kind, m.from, m.to, m.about, m.number]
}

pub fn message(r: Row) -> Message
    ensures { result ≡ message_of r }
{
    Message {
        kind: r[0],
        from: r[1],
        to: r[2],
        about: r[3],
        number: r[4],
    }
}

// An inner call: one entry more of a list of any kind, behind the first `count`.
pub fn put<T: Copy>(list: &mut [T], count: usize, x: T) -> usize
    requires { count < length list.old }
    ensures { (result ≡ count + 1) × (list.new ≡ set list.old count x) }
{
    list[count] = x;
    count + 1
}

// An inner call: one message more, behind the first `count`.
pub fn append(list: &mut [Row], count: usize, m: Message) -> usize
    requires { count < length list.old }
    ensures { Appends (m ∷ []) count list.old list.new result }
{
    put(list, count, row(m))
}
