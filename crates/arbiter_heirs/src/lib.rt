// What an arbiter does when its holder has released with a queued heir, as model/specs/Arbiter defines it. The desk is that of the
// arbiter's own site, and messages go to `out`, behind the first `count` rows.
#![tactic(auto)]

ghost use Rattle.rig.specs.Limits.{SiteNumber};
ghost use Rattle.model.specs.Arbiter.{head_named, heir_takes_over};
ghost use Rattle.list_rows.specs.Rows.{Appends};
ghost use Rattle.event_effects.specs.Effects.{CarriesOut};
ghost use Rattle.arbiter_grants.specs.Needs.{Room};

use arbiter_holder::{held_by, inquire_of, transfer_of};
use arbiter_queue::{before_holder, head, queued_at, requeued};
use event_effects::Acted;
use list_rows::{Row, append};
use rig::Desk;

// If the queue isn't empty, a transfer that names the head goes to the holder, then an inquire if the head comes before it.
#[tactic(auto, unfolding(model::specs::Arbiter::head_named, model::specs::Arbiter::inquire_if_before, model::specs::Arbiter::head_of))]
fn head_named(d: Desk, out: &mut [Row], count: usize) -> usize
    requires { Room d 0 2 count out.old }
    ensures { Appends (head_named d) count out.old out.new result }
{
    let h = head(&d.queued, d.size);
    if h == 0 {
        return count;
    }
    let named = append(out, count, transfer_of(d.number, d.arbiter, h));
    if !before_holder(&d.queued, d.arbiter, h) {
        return named;
    }
    append(out, named, inquire_of(d.number, d.arbiter))
}

// An inner call: queued site x, the heir of the holder, which has released, holds the permission now.
#[tactic(auto, unfolding(model::specs::Arbiter::heir_takes_over))]
pub fn heir_takes_over(d: Desk, out: &mut [Row], count: usize, x: u64) -> Acted
    requires { Room d 1 2 count out.old × SiteNumber x }
    ensures { CarriesOut (heir_takes_over d x) count out.old out.new result }
{
    let n = queued_at(&d.queued, x);
    let u = held_by(requeued(d, x, 0), d.arbiter.grant + 1, x, n);
    let sent = head_named(u, out, count);
    Acted {
        desk: u,
        count: sent,
    }
}
