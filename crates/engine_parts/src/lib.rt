// What the engine's public call does besides lending its list and playing the event: each part over plain numbers.
#![tactic(auto)]

ghost use Rattle.std.specs.Prelude.{◌≡◌};
ghost use Rattle.list_rows.specs.Rows.{zero_rows};
ghost use Rattle.engine_parts.specs.Parts.{list_code, read_of, changed_from};

use list_rows::Rows;
use list_search::Found;
use rig::{Message, Rig};

// The code that the list's length or its count gets: 13, 10, or 0 where both pass.
pub fn list_code(count: usize, len: usize) -> u64
    ensures { result ≡ list_code count len }
{
    if len != Rig::MESSAGES {
        return 13;
    }
    if count > Rig::MESSAGES {
        return 10;
    }
    0
}

// How many messages are read: none where the list is refused with that code.
pub fn read_count(code: u64, count: usize) -> usize
    ensures { result ≡ read_of code count }
{
    if code != 0 {
        return 0;
    }
    count
}

// A row for each message that may be under way, all of zeros.
pub fn blank_rows() -> Rows
    ensures { result ≡ zero_rows }
{
    [[0; Message::FIELDS]; Rig::MESSAGES]
}

// The place from which an event changes the list: where its message was found, behind the last message where it takes none off, and
// the list's end where it is refused.
pub fn changed_from(code: u64, found: Found, count: usize, len: usize) -> usize
    ensures { result ≡ changed_from code found count len }
{
    if code != 0 {
        return len;
    }
    match found {
        Found::At(place) => place,
        Found::Nowhere => count,
    }
}
