// The holder of an arbiter's permission: whether a message is from it, or from a queued site that got the permission from it; how it is
// set; what the arbiter sends it. The desk is that of the arbiter's own site.
#![tactic(auto)]

ghost use Rattle.std.specs.Prelude.{◌≡◌, ◌+◌, ◌^◌, ◌<◌};
ghost use Rattle.rig.specs.Limits.{SiteNumber};
ghost use Rattle.rig.specs.Messages.{inquire, transfer};
ghost use Rattle.model.specs.Arbiter.{from_holder, is_early, held_by};

use arbiter_queue::queued_at;
use rig::{Arbiter, Desk, Message};

// Whether the message is from the holder, with its grant number.
#[tactic(auto, unfolding(model::specs::Arbiter::from_holder))]
pub fn from_holder(d: Desk, k: u64, n: u64) -> bool
    ensures { result ≡ from_holder d k n }
{
    n == d.arbiter.grant && k == d.arbiter.holder
}

// An inner call: whether a release came before the arbiter knew that k holds the permission.
#[tactic(auto, unfolding(model::specs::Arbiter::is_early))]
pub fn is_early(d: Desk, k: u64, x: u64, n: u64) -> bool
    requires { SiteNumber k × (d.arbiter.grant + 1 < 2 ^ 64) }
    ensures { result ≡ is_early d k x n }
{
    n == d.arbiter.grant + 1 && (x == 0 && queued_at(&d.queued, k) != 0)
}

// The permission is held by k, with grant number g; it asked with sequence number n.
pub fn held_by(d: Desk, g: u64, k: u64, n: u64) -> Desk
    ensures { result ≡ held_by d g k n d.queued }
{
    let arbiter = Arbiter {
        grant: g,
        holder: k,
        seq: n,
    };
    Desk { arbiter, ..d }
}

// A transfer to the holder that names k, and an inquire to the holder: each carries the holder's grant number.
pub fn transfer_of(number: u64, a: Arbiter, k: u64) -> Message
    ensures { result ≡ transfer number a.holder k a.grant }
{
    Message::transfer(number, a.holder, k, a.grant)
}

pub fn inquire_of(number: u64, a: Arbiter) -> Message
    ensures { result ≡ inquire number a.holder a.grant }
{
    Message::inquire(number, a.holder, a.grant)
}
