// Whether what stands at one place of a rig is well shaped, as model/specs/Shape defines it: a set, a site and an arbiter.
#![tactic(auto)]

ghost use Rattle.std.specs.Prelude.{◌≡◌, ◌&&◌};
ghost use Rattle.model.specs.Shape.{set_shaped, mode_shaped, site_shaped, holder_shaped, arbiter_shaped};

use rig::{Arbiter, Mode, Rig, Site};
use rig_modes::is_resting;
use rig_reads::{is_given, is_number, is_site, tied};

// "all past N is 0": site k is one of the sites up to N, or has no set.
#[tactic(auto, unfolding(model::specs::Shape::set_shaped))]
fn set_shaped(size: u64, k: u64, set: u64) -> bool
    ensures { result ≡ set_shaped size k set }
{
    k <= size || set == 0
}

// A waiting site has a sequence number of at least 1.
#[tactic(auto, unfolding(model::specs::Shape::mode_shaped))]
fn mode_shaped(mode: Mode) -> bool
    ensures { result ≡ mode_shaped mode }
{
    match mode {
        Mode::Waiting { seq, .. } => is_given(seq),
        _ => true,
    }
}

// Site k has its fields in range, and is at rest with clock 0 where k is past N.
#[tactic(auto, unfolding(model::specs::Shape::site_shaped, model::specs::Shape::site_blank))]
fn site_shaped(size: u64, k: u64, site: Site) -> bool
    ensures { result ≡ site_shaped size k site }
{
    if is_site(size, k) {
        is_number(site.clock) && mode_shaped(site.mode)
    } else {
        site.clock == 0 && is_resting(site)
    }
}

// "an arbiter without holder has 0 as the holder's sequence number, one with a holder at least 1"; a holder has j in its set.
#[tactic(auto, unfolding(model::specs::Shape::holder_shaped))]
fn holder_shaped(sets: &[u64; Rig::SITES], j: u64, a: Arbiter) -> bool
    ensures { result ≡ holder_shaped sets.now j a }
{
    if a.holder == 0 {
        a.seq == 0
    } else {
        tied(sets, a.holder, j) && is_given(a.seq)
    }
}

// Arbiter j has its fields in range, and all 0 where j is past N.
#[tactic(auto, unfolding(model::specs::Shape::arbiter_shaped))]
fn arbiter_shaped(size: u64, sets: &[u64; Rig::SITES], j: u64, a: Arbiter) -> bool
    ensures { result ≡ arbiter_shaped size sets.now j a }
{
    is_number(a.grant) && holder_shaped(sets, j, a) && (is_site(size, j) || a.grant == 0)
}

// What stands at place k: a set, a site and an arbiter.
pub fn place_shaped(
    size: u64,
    sets: &[u64; Rig::SITES],
    k: u64,
    set: u64,
    site: Site,
    a: Arbiter,
) -> bool
    ensures { result ≡ set_shaped size k set && (site_shaped size k site && arbiter_shaped size sets.now k a) }
{
    set_shaped(size, k, set) && site_shaped(size, k, site) && arbiter_shaped(size, sets, k, a)
}
