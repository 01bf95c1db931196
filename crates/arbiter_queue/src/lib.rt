// An arbiter's queue: which ask comes first, the head, and what is queued.
#![tactic(auto)]

ghost use Rattle.std.specs.Prelude.{◌≡◌, ◌+◌, ◌≤◌, ◌<◌};
ghost use Rattle.rig.specs.Limits.{site_limit, SiteNumber};
ghost use Rattle.model.specs.Tables.{at};
ghost use Rattle.model.specs.Priority.{key, comes_before, queued_key, head_with, head};
ghost use Rattle.model.specs.Arbiter.{with_queued};

use rig::{Arbiter, Desk, Rig};

// Whether the first of two asks comes before the other.
#[tactic(auto, unfolding(model::specs::Priority::comes_before))]
fn comes_before(seq: u64, site: u64, other_seq: u64, other_site: u64) -> bool
    ensures { result ≡ comes_before (key seq site) (key other_seq other_site) }
{
    (seq, site) < (other_seq, other_site)
}

// An inner call: the sequence number queued of site k, 0 none.
#[tactic(auto, using(model::proofs::Tables::at_read))]
pub fn queued_at(queued: &[u64; Rig::SITES], k: u64) -> u64
    requires { SiteNumber k }
    ensures { result ≡ at 0 queued.now k }
{
    queued[(k - 1) as usize]
}

// The head, once site k is looked at: h is the head of the sites below k, 0 none.
#[tactic(auto, unfolding(model::specs::Priority::head_with))]
fn head_with(queued: &[u64; Rig::SITES], k: u64, h: u64) -> u64
    requires { SiteNumber k × (h ≤ site_limit) }
    ensures { result ≡ head_with queued.now k h }
{
    let seq = queued_at(queued, k);
    if seq != 0 && (h == 0 || comes_before(seq, k, queued_at(queued, h), h)) {
        k
    } else {
        h
    }
}

// An inner call: the queued site that comes before all others queued, 0 where the queue is empty.
pub fn head(queued: &[u64; Rig::SITES], size: u64) -> u64
    requires { size ≤ site_limit }
    ensures { result ≡ head queued.now size }
{
    let mut h = 0;
    for k in 1..=size {
        h = head_with(queued, k, h);
    }
    h
}

// An inner call: the desk with n as what is queued of site k.
pub fn requeued(d: Desk, k: u64, n: u64) -> Desk
    requires { SiteNumber k }
    ensures { result ≡ with_queued d k n }
{
    let mut u = d;
    u.queued[(k - 1) as usize] = n;
    u
}

// An inner call: whether queued site k comes before the holder.
pub fn before_holder(queued: &[u64; Rig::SITES], a: Arbiter, k: u64) -> bool
    requires { SiteNumber k }
    ensures { result ≡ comes_before (queued_key queued.now k) (key a.seq a.holder) }
{
    comes_before(queued_at(queued, k), k, a.seq, a.holder)
}
