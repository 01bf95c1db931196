// The fail of an arbiter to a queued site, as model/specs/Arbiter defines it. An inner call: the desk is that of the arbiter's own site, and
// messages go to `out`, behind the first `count` rows.
#![tactic(auto)]

ghost use Rattle.std.specs.Prelude.{◌≡◌, ◌≤◌};
ghost use Rattle.rig.specs.Limits.{site_limit, SiteNumber};
ghost use Rattle.model.specs.Arbiter.{fail_to, former_told, fail_former};
ghost use Rattle.list_rows.specs.Rows.{Appends};
ghost use Rattle.arbiter_grants.specs.Needs.{Room};

use arbiter_queue::{before_holder, queued_at};
use list_rows::{Row, append};
use rig::{Desk, Message};

// An inner call: a fail to queued site k, with the sequence number queued.
pub fn fail_to(d: Desk, k: u64) -> Message
    requires { SiteNumber k }
    ensures { result ≡ fail_to d k }
{
    Message::fail(d.number, k, queued_at(&d.queued, k))
}

// Whether the head before k was queued is told: there was one other than k, and it comes before the holder.
fn former_told(d: Desk, k: u64, former: u64) -> bool
    requires { former ≤ site_limit }
    ensures { result ≡ former_told d k former }
{
    former != 0 && (former != k && before_holder(&d.queued, d.arbiter, former))
}

// An inner call: a fail to the head before k was queued, if there was one other than k and it comes before the holder.
#[tactic(auto, unfolding(model::specs::Arbiter::fail_former))]
pub fn fail_former(d: Desk, out: &mut [Row], count: usize, k: u64, former: u64) -> usize
    requires { Room d 0 1 count out.old × SiteNumber k × (former ≤ site_limit) }
    ensures { Appends (fail_former d k former) count out.old out.new result }
{
    if !former_told(d, k, former) {
        return count;
    }
    let told = fail_to(d, former);
    append(out, count, told)
}
