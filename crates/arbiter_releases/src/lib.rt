// What an arbiter does with a release, as model/specs/Arbiter defines it. An inner call: the desk is that of the arbiter's own site, and
// messages go to `out`, behind the first `count` rows.
#![tactic(auto)]

ghost use Rattle.std.specs.Prelude.{◌≤◌};
ghost use Rattle.rig.specs.Limits.{site_limit, SiteNumber};
ghost use Rattle.model.specs.Arbiter.{holder_releases, early_release, on_release};
ghost use Rattle.event_effects.specs.Effects.{CarriesOut};
ghost use Rattle.arbiter_grants.specs.Needs.{Room};

use arbiter_grants::grant_head;
use arbiter_heirs::heir_takes_over;
use arbiter_holder::{from_holder, held_by, is_early};
use arbiter_queue::{queued_at, requeued};
use event_effects::Acted;
use list_rows::Row;
use rig::Desk;

// The release of the holder; x is the heir that it names, 0 none.
#[tactic(auto, unfolding(model::specs::Arbiter::holder_releases))]
fn holder_releases(d: Desk, out: &mut [Row], count: usize, x: u64) -> Acted
    requires { Room d 1 2 count out.old × (x ≤ site_limit) }
    ensures { CarriesOut (holder_releases d x) count out.old out.new result }
{
    if x == 0 {
        return grant_head(held_by(d, d.arbiter.grant, 0, 0), out, count);
    }
    if queued_at(&d.queued, x) == 0 {
        return Acted { desk: d, count };
    }
    heir_takes_over(d, out, count, x)
}

// The release of queued site k, which got the permission from the holder.
#[tactic(auto, unfolding(model::specs::Arbiter::early_release))]
fn early_release(d: Desk, out: &mut [Row], count: usize, k: u64) -> Acted
    requires { Room d 2 2 count out.old × SiteNumber k }
    ensures { CarriesOut (early_release d k) count out.old out.new result }
{
    let u = held_by(requeued(d, k, 0), d.arbiter.grant + 1, 0, 0);
    grant_head(u, out, count)
}

// An inner call: a release from k with number n; x is the heir that it names, 0 none.
#[tactic(auto, unfolding(model::specs::Arbiter::on_release))]
pub fn on_release(d: Desk, out: &mut [Row], count: usize, k: u64, x: u64, n: u64) -> Acted
    requires { Room d 2 2 count out.old × SiteNumber k × (x ≤ site_limit) }
    ensures { CarriesOut (on_release d k x n) count out.old out.new result }
{
    if from_holder(d, k, n) {
        return holder_releases(d, out, count, x);
    }
    if is_early(d, k, x, n) {
        return early_release(d, out, count, k);
    }
    Acted { desk: d, count }
}
