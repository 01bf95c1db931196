// What a printed line says of a rig's sites: which one is inside, and how many wait.
#![tactic(auto)]

ghost use Rattle.std.specs.Prelude.{◌≡◌};
ghost use Rattle.model.specs.Run.{waiting_count};
ghost use Rattle.model.specs.Printed.{inside_up_to};

use rig::Rig;
use rig_modes::{is_inside, is_waiting};

// The site inside, the lowest where there are several, 0 none.
pub fn inside(rig: Rig) -> u64
    ensures { result ≡ inside_up_to rig rig.size }
{
    let first = rig
        .sites
        .iter()
        .take(rig.size as usize)
        .position(|site| is_inside(*site));
    match first {
        Some(i) => i as u64 + 1,
        None => 0,
    }
}

// How many sites wait.
pub fn waiting(rig: Rig) -> u64
    ensures { result ≡ waiting_count rig }
{
    rig.sites
        .iter()
        .take(rig.size as usize)
        .filter(|site| is_waiting(**site))
        .count() as u64
}
