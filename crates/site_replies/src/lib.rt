// What a site does with a reply.
#![tactic(auto)]

ghost use Rattle.std.specs.Prelude.{◌≡◌, ◌<◌, ◌≤◌, length};
ghost use Rattle.model.specs.Site.{entered_or_yielded, takes, on_reply};
ghost use Rattle.event_effects.specs.Effects.{CarriesOut};
ghost use Rattle.rig.specs.Limits.{site_limit, SiteNumber};

use event_effects::Acted;
use list_rows::Row;
use rig::Desk;

// What follows once a number is held for j: the site is inside, or yields j, or waits on.
#[tactic(auto, using(model::proofs::Tables::at_read), unfolding(model::specs::Site::entered_or_yielded))]
fn enter_or_yield(d: Desk, j: u64, out: &mut [Row], count: usize) -> Acted
    requires { SiteNumber j × (d.size ≤ site_limit) × (count < length out.old) }
    ensures { CarriesOut (entered_or_yielded d j) count out.old out.new result }
{
    if site_held::all_held(d) {
        return Acted {
            desk: site_entries::enter(d),
            count,
        };
    }
    if !rig_modes::has_failed(d.site) {
        return Acted { desk: d, count };
    }
    let i = (j - 1) as usize;
    let q = d.inquired[i];
    if q == 0 {
        return Acted { desk: d, count };
    }
    site_yields::yield_member(d, j, out, count)
}

// Whether the site takes a reply about j: it waits, and j is a member that it does not hold.
#[tactic(auto, using(model::proofs::Tables::at_read), unfolding(model::specs::Site::takes))]
fn takes(d: Desk, j: u64) -> bool
    requires { SiteNumber j }
    ensures { result ≡ takes d j }
{
    rig_modes::is_waiting(d.site)
        && (rig_reads::is_member(d.members, j) && d.held[(j - 1) as usize] == 0)
}

// An inner call: a reply about j, with number n.
#[tactic(auto, unfolding(model::specs::Site::on_reply, model::specs::Site::taken))]
pub fn on_reply(d: Desk, j: u64, n: u64, out: &mut [Row], count: usize) -> Acted
    requires { SiteNumber j × (d.size ≤ site_limit) × (count < length out.old) }
    ensures { CarriesOut (on_reply d j n) count out.old out.new result }
{
    if !takes(d, j) {
        return Acted { desk: d, count };
    }
    enter_or_yield(site_entries::take(d, j, n), j, out, count)
}
