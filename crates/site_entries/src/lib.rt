// A site's part of its desk: how it changes.
#![tactic(auto)]

ghost use Rattle.std.specs.Prelude.{◌≡◌, cond, eqb};
ghost use Rattle.rig.specs.Limits.{SiteNumber};
ghost use Rattle.model.specs.Desk.{with_site, without_entries};
ghost use Rattle.model.specs.Site.{failed_set, entered, taken, remembered};

use rig::{Desk, Mode, Rig, Site};

// The desk with no entries, and with the given site.
pub fn cleared(d: Desk, site: Site) -> Desk
    ensures { result ≡ with_site (without_entries d) site }
{
    let none = [0; Rig::SITES];
    Desk {
        site,
        held: none,
        heir: none,
        inquired: none,
        ..d
    }
}

// The failed mark is set.
#[tactic(auto, unfolding(model::specs::Site::failed_set))]
pub fn failed_set(d: Desk) -> Desk
    ensures { result ≡ failed_set d }
{
    let mode = Mode::Waiting {
        seq: rig_modes::seq_in(d.site),
        failed: true,
    };
    Desk {
        site: Site { mode, ..d.site },
        ..d
    }
}

// The site is inside; its remembered inquires are cleared.
#[tactic(auto, unfolding(model::specs::Site::entered))]
pub fn enter(d: Desk) -> Desk
    ensures { result ≡ entered d }
{
    let site = Site {
        mode: Mode::Inside,
        ..d.site
    };
    Desk {
        site,
        inquired: [0; Rig::SITES],
        ..d
    }
}

// A remembered inquire's number q once number n is held: one of another number is forgotten.
fn kept_inquire(q: u64, n: u64) -> u64
    ensures { result ≡ cond (eqb q n) n 0 }
{
    if q == n { n } else { 0 }
}

// An inner call: number n is held for j.
pub fn take(d: Desk, j: u64, n: u64) -> Desk
    requires { SiteNumber j }
    ensures { result ≡ taken d j n }
{
    let i = (j - 1) as usize;
    let mut e = d;
    e.held[i] = n;
    e.inquired[i] = kept_inquire(d.inquired[i], n);
    e
}

// An inner call: an inquire from j with number n is remembered.
pub fn remember(d: Desk, j: u64, n: u64) -> Desk
    requires { SiteNumber j }
    ensures { result ≡ remembered d j n }
{
    let i = (j - 1) as usize;
    let mut e = d;
    e.inquired[i] = n;
    e
}
