// What a site does with an inquire.
#![tactic(auto)]

ghost use Rattle.std.specs.Prelude.{◌<◌, length};
ghost use Rattle.model.specs.Site.{yielded_or_remembered, on_inquire};
ghost use Rattle.event_effects.specs.Effects.{CarriesOut};
ghost use Rattle.rig.specs.Limits.{SiteNumber};

use event_effects::Acted;
use list_rows::Row;
use rig::Desk;

// What a waiting site does with an inquire from j, with number n.
fn yield_or_remember(d: Desk, j: u64, n: u64, out: &mut [Row], count: usize) -> Acted
    requires { SiteNumber j × (count < length out.old) }
    ensures { CarriesOut (yielded_or_remembered d j n) count out.old out.new result }
{
    let i = (j - 1) as usize;
    let g = d.held[i];
    if g == 0 {
        let e = site_entries::remember(d, j, n);
        return Acted { desk: e, count };
    }
    if n != g {
        return Acted { desk: d, count };
    }
    if rig_modes::has_failed(d.site) {
        return site_yields::yield_member(d, j, out, count);
    }
    Acted {
        desk: site_entries::remember(d, j, n),
        count,
    }
}

// An inner call: an inquire from j, with number n.
#[tactic(auto, unfolding(model::specs::Site::on_inquire))]
pub fn on_inquire(d: Desk, j: u64, n: u64, out: &mut [Row], count: usize) -> Acted
    requires { SiteNumber j × (count < length out.old) }
    ensures { CarriesOut (on_inquire d j n) count out.old out.new result }
{
    if !rig_modes::is_waiting(d.site) {
        return Acted { desk: d, count };
    }
    yield_or_remember(d, j, n, out, count)
}
