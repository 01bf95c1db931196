// What an arbiter does with a yield, as model/specs/Arbiter defines it. An inner call: the desk is that of the arbiter's own site, and
// messages go to `out`, behind the first `count` rows.
#![tactic(auto)]

ghost use Rattle.rig.specs.Limits.{SiteNumber};
ghost use Rattle.model.specs.Arbiter.{on_yield};
ghost use Rattle.event_effects.specs.Effects.{CarriesOut};
ghost use Rattle.arbiter_grants.specs.Needs.{Room};

use arbiter_grants::grant_head;
use arbiter_holder::{from_holder, held_by};
use arbiter_queue::requeued;
use event_effects::Acted;
use list_rows::Row;
use rig::Desk;

// An inner call: a yield from k with number n.
#[tactic(auto, unfolding(model::specs::Arbiter::on_yield))]
pub fn on_yield(d: Desk, out: &mut [Row], count: usize, k: u64, n: u64) -> Acted
    requires { Room d 1 2 count out.old × SiteNumber k }
    ensures { CarriesOut (on_yield d k n) count out.old out.new result }
{
    if !from_holder(d, k, n) {
        return Acted { desk: d, count };
    }
    let u = requeued(d, k, d.arbiter.seq);
    grant_head(held_by(u, d.arbiter.grant, 0, 0), out, count)
}
