// Whether a rig is well shaped, as model/specs/Shape defines it.
#![tactic(auto)]

ghost use Rattle.std.specs.Prelude.{◌≡◌};
ghost use Rattle.rig.specs.Limits.{site_limit};
ghost use Rattle.basics.specs.Helpers.{all};
ghost use Rattle.model.specs.Shape.{place_shaped, rig_shaped};

use rig::Rig;
use setup_faults::judge;
use shape_places::place_shaped;

// Every place.
fn places_shaped(rig: &Rig) -> bool
    ensures { result ≡ all (place_shaped rig.now) site_limit }
{
    // no plainer: one index reads the sets, the sites and the arbiters
    for i in 0..Rig::SITES {
        let set = rig.sets[i];
        let site = rig.sites[i];
        let a = rig.arbiters[i];
        if !place_shaped(rig.size, &rig.sets, i as u64 + 1, set, site, a) {
            return false;
        }
    }
    true
}

// Sets such as setup passes, at most 1,000,000 accepted events, and every place.
#[tactic(auto, using(refusals::proofs::Refusals::accepted_code), unfolding(model::specs::Shape::rig_shaped))]
pub fn rig_shaped(rig: Rig) -> bool
    ensures { result ≡ rig_shaped rig }
{
    judge(rig.size, &rig.sets).is_ok() && rig.accepted <= Rig::EVENTS && places_shaped(&rig)
}
