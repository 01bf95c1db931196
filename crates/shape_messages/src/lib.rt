// Whether a message under way is well shaped, as model/specs/Shape defines it.
#![tactic(auto)]

ghost use Rattle.std.specs.Prelude.{◌≡◌};
ghost use Rattle.model.specs.Shape.{number_shaped, plain_shaped, release_shaped, about_shaped, message_shaped};

use rig::{Message, Rig};
use rig_reads::{both_tied, is_given, is_number, is_site, tied};

// A number of at least 1; in a fail also 0.
#[tactic(auto, unfolding(model::specs::Shape::number_shaped))]
fn number_shaped(m: Message) -> bool
    ensures { result ≡ number_shaped m }
{
    if m.kind == Message::FAIL {
        return is_number(m.number);
    }
    is_given(m.number)
}

// `about` is 0, and site k is tied to arbiter j.
#[tactic(auto, unfolding(model::specs::Shape::plain_shaped))]
fn plain_shaped(sets: &[u64; Rig::SITES], about: u64, k: u64, j: u64) -> bool
    ensures { result ≡ plain_shaped sets.now about k j }
{
    about == 0 && tied(sets, k, j)
}

// Site k is tied to arbiter j, and so is the heir where there is one.
#[tactic(auto, unfolding(model::specs::Shape::release_shaped))]
fn release_shaped(sets: &[u64; Rig::SITES], k: u64, j: u64, heir: u64) -> bool
    ensures { result ≡ release_shaped sets.now k j heir }
{
    tied(sets, k, j) && (heir == 0 || tied(sets, heir, j))
}

// "`about` is the arbiter in a reply, the heir in a transfer, the heir or 0 in a release, otherwise 0", and each site is tied to its arbiter.
#[tactic(auto, unfolding(model::specs::Shape::about_shaped))]
fn about_shaped(sets: &[u64; Rig::SITES], m: Message) -> bool
    ensures { result ≡ about_shaped sets.now m }
{
    match m.kind {
        Message::REQUEST => plain_shaped(sets, m.about, m.from, m.to),
        Message::REPLY => tied(sets, m.to, m.about),
        Message::RELEASE => release_shaped(sets, m.from, m.to, m.about),
        Message::INQUIRE => plain_shaped(sets, m.about, m.to, m.from),
        Message::FAIL => plain_shaped(sets, m.about, m.to, m.from),
        Message::YIELD => plain_shaped(sets, m.about, m.from, m.to),
        Message::TRANSFER => both_tied(sets, m.to, m.about, m.from),
        _ => false,
    }
}

// A message's fields are in range and fit its kind.
#[tactic(auto, unfolding(model::specs::Shape::message_shaped))]
pub fn message_shaped(size: u64, sets: &[u64; Rig::SITES], m: Message) -> bool
    ensures { result ≡ message_shaped size sets.now m }
{
    is_site(size, m.from) && is_site(size, m.to) && number_shaped(m) && about_shaped(sets, m)
}
