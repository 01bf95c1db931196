// A message as the numbers of a line, and back.
#![tactic(auto)]

ghost use Rattle.std.specs.Prelude.{cond, ◌≡◌, eqb};
ghost use Rattle.save_fields.specs.Values.{value_of};
ghost use Rattle.save_messages.specs.Messages.{has_about, message_numbers, message_from};

use rig::Message;
use save_fields::{Numbers, Value, first_five};

// Whether a message of the kind is about a site.
fn has_about(kind: u64) -> bool
    ensures { result ≡ has_about kind }
{
    kind == Message::REPLY || (kind == Message::RELEASE || kind == Message::TRANSFER)
}

// How many numbers a line has whose last one is written only where it is not 0.
fn count_of(last: u64, without: usize, with: usize) -> usize
    ensures { result ≡ cond (eqb last 0) without with }
{
    if last == 0 { without } else { with }
}

pub fn message_value(m: Message) -> Value
    ensures { result ≡ value_of (message_numbers m) }
{
    if has_about(m.kind) {
        return first_five(
            m.kind,
            m.from,
            m.to,
            m.about,
            m.number,
            count_of(m.number, 4, 5),
        );
    }
    first_five(m.kind, m.from, m.to, m.number, 0, count_of(m.number, 3, 4))
}

// A message whose number stands behind `about`, if it is about a site.
fn message_of(kind: u64, from: u64, to: u64, about: bool, fourth: u64, fifth: u64) -> Message
    ensures { result ≡ record { kind = kind; from = from; to = to; about = cond about fourth 0; number = cond about fifth fourth } }
{
    if about {
        return Message {
            kind,
            from,
            to,
            about: fourth,
            number: fifth,
        };
    }
    Message {
        kind,
        from,
        to,
        about: 0,
        number: fourth,
    }
}

pub fn message_from(ns: &Numbers) -> Message
    ensures { result ≡ message_from ns.now }
{
    message_of(ns[0], ns[1], ns[2], has_about(ns[0]), ns[3], ns[4])
}
