// What an arbiter answers to a site that it has queued, as model/specs/Arbiter defines it. An inner call: the desk is that of the arbiter's
// own site, and messages go to `out`, behind the first `count` rows.
#![tactic(auto)]

ghost use Rattle.std.specs.Prelude.{◌≡◌, [], ◌∷◌, ◌+◌, ◌≤◌, length};
ghost use Rattle.rig.specs.Limits.{site_limit, SiteNumber};
ghost use Rattle.model.specs.Arbiter.{inquire_or_fail, answers};
ghost use Rattle.list_rows.specs.Rows.{Appends};
ghost use Rattle.arbiter_grants.specs.Needs.{Room};

use arbiter_fails::{fail_former, fail_to};
use arbiter_holder::{inquire_of, transfer_of};
use arbiter_queue::{before_holder, head};
use list_rows::{Row, append};
use rig::{Desk, Message};

// An inquire to the holder if k comes before it, else a fail to k.
#[tactic(auto, unfolding(model::specs::Arbiter::inquire_or_fail))]
fn inquire_or_fail(d: Desk, k: u64) -> Message
    requires { SiteNumber k }
    ensures { result ≡ inquire_or_fail d k }
{
    if before_holder(&d.queued, d.arbiter, k) {
        return inquire_of(d.number, d.arbiter);
    }
    fail_to(d, k)
}

// Two messages, in this order.
fn append_two(out: &mut [Row], count: usize, one: Message, other: Message) -> usize
    requires { count + 2 ≤ length out.old }
    ensures { Appends (one ∷ other ∷ []) count out.old out.new result }
{
    let next = append(out, count, one);
    append(out, next, other)
}

// An inner call: the answers to k, which has been queued; `former` was the head before, 0 none.
pub fn answers(d: Desk, out: &mut [Row], count: usize, k: u64, former: u64) -> usize
    requires { Room d 0 3 count out.old × SiteNumber k × (former ≤ site_limit) }
    ensures { Appends (answers d k former) count out.old out.new result }
{
    if head(&d.queued, d.size) != k {
        return append(out, count, fail_to(d, k));
    }
    let failed = fail_former(d, out, count, k, former);
    let named = transfer_of(d.number, d.arbiter, k);
    let last = inquire_or_fail(d, k);
    append_two(out, failed, named, last)
}
