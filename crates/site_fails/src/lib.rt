// What a site does with a fail.
#![tactic(auto)]

ghost use Rattle.std.specs.Prelude.{◌≡◌, ◌≤◌, ◌+◌, length};
ghost use Rattle.model.specs.Site.{fail_counts, on_fail};
ghost use Rattle.event_effects.specs.Effects.{CarriesOut};
ghost use Rattle.rig.specs.Limits.{site_limit};

use event_effects::Acted;
use list_rows::Row;
use rig::Desk;

// Whether a fail counts: the site waits, and the fail's number is its sequence number, or 0 in a fail of an earlier version.
#[tactic(auto, unfolding(model::specs::Site::fail_counts))]
fn fail_counts(d: Desk, number: u64) -> bool
    ensures { result ≡ fail_counts d number }
{
    rig_modes::is_waiting(d.site) && (number == rig_modes::seq_in(d.site) || number == 0)
}

// An inner call: a fail with this number.
#[tactic(auto, unfolding(model::specs::Site::on_fail))]
pub fn on_fail(d: Desk, number: u64, out: &mut [Row], count: usize) -> Acted
    requires { (d.size ≤ site_limit) × (count + site_limit ≤ length out.old) }
    ensures { CarriesOut (on_fail d number) count out.old out.new result }
{
    if !fail_counts(d, number) {
        return Acted { desk: d, count };
    }
    site_yields::yield_members(d, out, count)
}
