// The sites of an event: at which one it happens, from which and to which a message goes, and where a site's parts stand in a rig.
#![tactic(auto)]

ghost use Rattle.std.specs.Prelude.{◌≡◌, ◌≤◌, ◌<◌};
ghost use Rattle.rig.specs.Limits.{site_limit, event_limit};
ghost use Rattle.model.specs.Event.{actor, sites_named};
ghost use Rattle.event_sites.specs.Places.{sender_of, receiver_of, place_of, counted_on};

use rig::Event;
use rig_reads::is_site;

// The site at which an event happens: the asker, the leaver or the receiver.
#[tactic(auto, unfolding(model::specs::Event::actor))]
pub fn actor(e: Event) -> u64
    ensures { result ≡ actor e }
{
    match e {
        Event::Ask(s) | Event::Leave(s) => s,
        Event::Deliver(_, receiver) => receiver,
    }
}

// The site that a delivery is from, 0 for an ask or a leave.
pub fn sender(e: Event) -> u64
    ensures { result ≡ sender_of e }
{
    match e {
        Event::Deliver(a, _) => a,
        _ => 0,
    }
}

// The site that a delivery is to, 0 for an ask or a leave.
pub fn receiver(e: Event) -> u64
    ensures { result ≡ receiver_of e }
{
    match e {
        Event::Deliver(_, b) => b,
        _ => 0,
    }
}

// An inner call: the index of a site in a rig's arrays, 0 for what is no site.
pub fn place_of(size: u64, s: u64) -> usize
    requires { size ≤ site_limit }
    ensures { (result ≡ place_of size s) × (result < site_limit) }
{
    if is_site(size, s) {
        return (s - 1) as usize;
    }
    0
}

// An inner call: the accepted events, once one more is answered with that code.
pub fn counted_on(accepted: u64, code: u64) -> u64
    requires { accepted ≤ event_limit }
    ensures { result ≡ counted_on accepted code }
{
    if code == 0 {
        return accepted + 1;
    }
    accepted
}

// Whether each site that an event names is one of 1 to `size`.
#[tactic(auto, unfolding(model::specs::Event::sites_named))]
pub fn sites_named(size: u64, e: Event) -> bool
    ensures { result ≡ sites_named size e }
{
    match e {
        Event::Ask(s) | Event::Leave(s) => is_site(size, s),
        Event::Deliver(a, b) => is_site(size, a) && is_site(size, b),
    }
}
