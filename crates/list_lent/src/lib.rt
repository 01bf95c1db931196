// The list of messages as the engine's caller lends it: a slice of message structs, in two thin functions.
#![tactic(auto)]

ghost use Rattle.std.specs.Prelude.{◌≡◌, ◌<◌, ◌+◌, length, take, set};
ghost use Rattle.list_lent.specs.First.{first_in};

use list_rows::put;
use list_search::{Found, search};
use rig::Message;

// The place of the first message from a to b, of the first `count`.
pub fn first(list: &[Message], count: usize, a: u64, b: u64) -> Found
    ensures { result ≡ first_in a b (take count list.now) }
{
    search(list, count, a, b)
}

// An inner call: one message more, behind the first `count`.
pub fn append(list: &mut [Message], count: usize, m: Message) -> usize
    requires { count < length list.old }
    ensures { (result ≡ count + 1) × (list.new ≡ set list.old count m) }
{
    put(list, count, m)
}
