// Setup: judges the request sets of a rig, and makes the fresh rig of sets that pass.
#![tactic(auto)]

ghost use Rattle.std.specs.Prelude.{◌≡◌, ◌≤◌, length, IfOk};
ghost use Rattle.rig.specs.Limits.{site_limit};
ghost use Rattle.refusals.specs.Numbers.{code_in};
ghost use Rattle.model.specs.Setup.{setup_code, kept_sets, resting_rig, fresh_rig};
ghost use Rattle.model.specs.Run.{StartsRun};

use refusals::Refusal;
use rig::{Arbiter, Mode, Rig, Site};
use setup_faults::judge;

// The sets of sites 1 to `size`, and 0 past them.
fn kept(size: u64, sets: &[u64]) -> [u64; Rig::SITES]
    requires { (size ≤ site_limit) × (length sets.now ≡ site_limit) }
    ensures { result ≡ kept_sets size sets.now }
{
    let n = size as usize;
    let mut out = [0; Rig::SITES];
    out[..n].copy_from_slice(&sets[..n]);
    out
}

// A rig in which nothing has happened.
pub fn resting(size: u64, sets: [u64; Rig::SITES]) -> Rig
    ensures { result ≡ resting_rig size sets }
{
    let site = Site {
        mode: Mode::Rest,
        clock: 0,
    };
    let arbiter = Arbiter {
        grant: 0,
        holder: 0,
        seq: 0,
    };
    let sites = [site; Rig::SITES];
    let arbiters = [arbiter; Rig::SITES];
    Rig {
        size,
        sets,
        sites,
        arbiters,
        accepted: 0,
    }
}

// The fresh rig, which starts a run of these sets, or why they are turned down.
pub fn setup(size: u64, sets: &[u64]) -> Result<Rig, Refusal>
    ensures determined { (code_in result ≡ setup_code size sets.now) × IfOk result (λ rig. rig ≡ fresh_rig size sets.now) }
    ensures starts { IfOk result (λ rig. StartsRun size sets.now rig) }
{
    judge(size, sets)?;
    Ok(resting(size, kept(size, sets)))
}
