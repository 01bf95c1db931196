// The search for the first message from one site to another.
#![tactic(auto)]

ghost use Rattle.std.specs.Prelude.{◌≡◌, position, take};
ghost use Rattle.rig.specs.declared.Message.{Message};
ghost use Rattle.model.specs.Deliver.{between};
ghost use Rattle.list_rows.specs.Rows.{message_of};
ghost use Rattle.list_search.specs.Places.{found_of, found_in, place_from};

use list_rows::{Row, Rows, message};
use rig::Message;

// Where a search ended.
#[derive(Clone, Copy)]
pub enum Found {
    At(usize),
    Nowhere,
}

// Whether a message is from a to b.
#[tactic(auto, unfolding(model::specs::Deliver::between))]
pub fn is_between(m: Message, a: u64, b: u64) -> bool
    ensures { result ≡ between a b m }
{
    a == m.from && b == m.to
}

// An entry of a list of messages: a row, or the message itself.
pub trait Entry {
    ghost message_in: { Self → Message };

    // Whether its message is from a to b.
    fn is_sent(&self, a: u64, b: u64) -> bool
        ensures { result ≡ between a b (message_in self.now) };
}

impl Entry for Row {
    ghost message_in = { message_of };

    fn is_sent(&self, a: u64, b: u64) -> bool {
        is_between(message(*self), a, b)
    }
}

impl Entry for Message {
    ghost message_in = { λ m. m };

    fn is_sent(&self, a: u64, b: u64) -> bool {
        is_between(*self, a, b)
    }
}

// Where such an entry stands first, if one does.
fn place_in<E: Entry>(list: &[E], a: u64, b: u64) -> Option<usize>
    ensures { result ≡ position (λ e. between a b (E.message_in e)) list.now }
{
    list.iter().position(|e| e.is_sent(a, b))
}

// The same, of the first `count`. They are cut off before the search: over `take(count)` each turn counts twice, and a long list takes 1.4 times the time.
fn place<E: Entry>(list: &[E], count: usize, a: u64, b: u64) -> Option<usize>
    ensures { result ≡ position (λ e. between a b (E.message_in e)) (take count list.now) }
{
    if count < list.len() {
        place_in(&list[..count], a, b)
    } else {
        place_in(list, a, b)
    }
}

// An inner call: the place of the first entry from a to b, of the first `count`.
pub fn search<E: Entry>(list: &[E], count: usize, a: u64, b: u64) -> Found
    ensures { result ≡ place_from 0 (λ e. between a b (E.message_in e)) (take count list.now) }
{
    match place(list, count, a, b) {
        Some(i) => Found::At(i),
        None => Found::Nowhere,
    }
}

// The place of the first message from a to b, of the first `count`.
pub fn first(list: &Rows, count: usize, a: u64, b: u64) -> Found
    ensures { result ≡ found_in a b (take count list.now) }
{
    search(list, count, a, b)
}
