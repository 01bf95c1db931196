// What an arbiter does with a request, as model/specs/Arbiter defines it. An inner call: the desk is that of the arbiter's own site, and
// messages go to `out`, behind the first `count` rows.
#![tactic(auto)]

ghost use Rattle.std.specs.Prelude.{◌≡◌};
ghost use Rattle.rig.specs.Limits.{SiteNumber};
ghost use Rattle.model.specs.Arbiter.{clock_raised, queued_up, on_request};
ghost use Rattle.event_effects.specs.Effects.{CarriesOut};
ghost use Rattle.arbiter_grants.specs.Needs.{Room};

use arbiter_answers::answers;
use arbiter_grants::grant;
use arbiter_queue::{head, requeued};
use event_effects::Acted;
use list_rows::Row;
use rig::{Desk, Site};

// The site's clock becomes the larger of itself and n.
#[tactic(auto, unfolding(model::specs::Arbiter::clock_raised))]
fn clock_raised(d: Desk, n: u64) -> Desk
    ensures { result ≡ clock_raised d n }
{
    let site = Site {
        clock: d.site.clock.max(n),
        ..d.site
    };
    Desk { site, ..d }
}

// Queues k with sequence number n, while another site holds the permission.
fn queue_up(d: Desk, out: &mut [Row], count: usize, k: u64, n: u64) -> Acted
    requires { Room d 0 3 count out.old × SiteNumber k }
    ensures { CarriesOut (queued_up d k n) count out.old out.new result }
{
    let former = head(&d.queued, d.size);
    let u = requeued(d, k, n);
    let sent = answers(u, out, count, k, former);
    Acted {
        desk: u,
        count: sent,
    }
}

// An inner call: a request from k with sequence number n.
pub fn on_request(d: Desk, out: &mut [Row], count: usize, k: u64, n: u64) -> Acted
    requires { Room d 1 3 count out.old × SiteNumber k }
    ensures { CarriesOut (on_request d k n) count out.old out.new result }
{
    let u = clock_raised(d, n);
    if u.arbiter.holder == 0 {
        return grant(u, out, count, k, n);
    }
    queue_up(u, out, count, k, n)
}
