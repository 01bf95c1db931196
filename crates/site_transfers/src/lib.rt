// What a site does with a transfer.
#![tactic(auto)]

ghost use Rattle.model.specs.Site.{on_transfer};
ghost use Rattle.event_effects.specs.Effects.{CarriesOut};
ghost use Rattle.rig.specs.Limits.{SiteNumber};

use event_effects::Acted;
use list_rows::Row;
use rig::Desk;

// An inner call: a transfer from j that names x, with number n.
pub fn on_transfer(d: Desk, j: u64, x: u64, n: u64, out: &mut [Row], count: usize) -> Acted
    requires { SiteNumber j }
    ensures { CarriesOut (on_transfer d j x n) count out.old out.new result }
{
    let i = (j - 1) as usize;
    let g = d.held[i];
    if n == g {
        let mut e = d;
        e.heir[i] = x;
        return Acted { desk: e, count };
    }
    Acted { desk: d, count }
}
