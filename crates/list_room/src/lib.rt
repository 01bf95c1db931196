// Whether the list of messages has room for what an event sends.
#![tactic(auto)]

ghost use Rattle.std.specs.Prelude.{◌≡◌, ◌<◌, ◌≤◌, ◌+◌, leb, length, take};
ghost use Rattle.rig.specs.Limits.{message_limit};
ghost use Rattle.list_rows.specs.Rows.{without};

use list_rows::{Row, Rows};

// Whether there is room for m rows more, once the message at `place` is taken off, none where place is `count`.
fn has_room_in(list: &[Row], count: usize, place: usize, m: usize) -> bool
    requires { (place ≤ count) × (count ≤ length list.now) × (m < message_limit) }
    ensures { result ≡ leb (length (without place (take count list.now)) + m) (length list.now) }
{
    if place < count {
        return count - 1 + m <= list.len();
    }
    count + m <= list.len()
}

// An inner call: the same of a list of 1,024 rows.
pub fn has_room(list: &Rows, count: usize, place: usize, m: usize) -> bool
    requires { (place ≤ count) × (count ≤ message_limit) × (m < message_limit) }
    ensures { result ≡ leb (length (without place (take count list.now)) + m) message_limit }
{
    has_room_in(list, count, place, m)
}
