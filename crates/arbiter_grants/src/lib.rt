// How an arbiter grants, and names its holder the next heir. The desk is that of the arbiter's own site, and messages go to `out`, behind the
// first `count` rows.
#![tactic(auto)]

ghost use Rattle.rig.specs.Limits.{SiteNumber};
ghost use Rattle.model.specs.Arbiter.{next_heir, granted, granted_head};
ghost use Rattle.list_rows.specs.Rows.{Appends};
ghost use Rattle.event_effects.specs.Effects.{CarriesOut};
ghost use Rattle.arbiter_grants.specs.Needs.{Room};

use arbiter_holder::{held_by, transfer_of};
use arbiter_queue::{head, queued_at, requeued};
use event_effects::Acted;
use list_rows::{Row, append};
use rig::{Desk, Message};

// If the queue isn't empty, a transfer that names the head goes to the holder.
#[tactic(auto, unfolding(model::specs::Arbiter::next_heir, model::specs::Arbiter::head_of))]
fn next_heir(d: Desk, out: &mut [Row], count: usize) -> usize
    requires { Room d 0 1 count out.old }
    ensures { Appends (next_heir d) count out.old out.new result }
{
    let h = head(&d.queued, d.size);
    if h == 0 {
        return count;
    }
    append(out, count, transfer_of(d.number, d.arbiter, h))
}

// An inner call: grants k, which asked with sequence number n.
pub fn grant(d: Desk, out: &mut [Row], count: usize, k: u64, n: u64) -> Acted
    requires { Room d 1 2 count out.old × SiteNumber k }
    ensures { CarriesOut (granted d k n) count out.old out.new result }
{
    let u = held_by(requeued(d, k, 0), d.arbiter.grant + 1, k, n);
    let replied = append(
        out,
        count,
        Message::reply(u.number, k, u.number, u.arbiter.grant),
    );
    let named = next_heir(u, out, replied);
    Acted {
        desk: u,
        count: named,
    }
}

// An inner call: grants the head, if any.
#[tactic(auto, unfolding(model::specs::Arbiter::granted_head, model::specs::Arbiter::head_of))]
pub fn grant_head(d: Desk, out: &mut [Row], count: usize) -> Acted
    requires { Room d 1 2 count out.old }
    ensures { CarriesOut (granted_head d) count out.old out.new result }
{
    let h = head(&d.queued, d.size);
    if h == 0 {
        return Acted { desk: d, count };
    }
    let n = queued_at(&d.queued, h);
    grant(d, out, count, h, n)
}
