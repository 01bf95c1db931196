// Judges the request sets of a rig, and says which is at fault.
#![tactic(auto)]

ghost use Rattle.std.specs.Prelude.{◌≡◌, ◌≤◌, length};
ghost use Rattle.rig.specs.Limits.{site_limit};
ghost use Rattle.model.specs.Setup.{each_code, meeting_code, setup_code};
ghost use Rattle.refusals.specs.Numbers.{code_in};
ghost use Rattle.setup_rules.specs.Rules.{MayCompare};
ghost use Rattle.setup_faults.specs.Faults.{first_breaking, site_found, fault_line};

use refusals::Refusal;
use rig::Rig;
use setup_rules::{Rule, keeps};

// The first site whose set breaks the rule.
fn first_breaking(rule: Rule, size: u64, sets: &[u64]) -> Option<u64>
    requires { (size ≤ site_limit) × (length sets.now ≡ site_limit) × MayCompare rule size sets.now }
    ensures { result ≡ site_found (first_breaking rule size sets.now) }
{
    (0..size)
        .find(|&k| !keeps(rule, size, sets, k))
        .map(|k| k + 1)
}

// The refusals 13, 1 and 2: what is asked of N, and of each set by itself.
fn judge_each(size: u64, sets: &[u64]) -> Result<(), Refusal>
    ensures { code_in result ≡ each_code size sets.now }
{
    if sets.len() != Rig::SITES {
        return Err(Refusal::WrongLength);
    }
    if size == 0 {
        return Err(Refusal::SiteCount);
    }
    if size > Rig::SITES as u64 {
        return Err(Refusal::SiteCount);
    }
    if first_breaking(Rule::Names, size, sets).is_some() {
        return Err(Refusal::FaultySet);
    }
    Ok(())
}

// The refusals 13, 1, 2 and 3 alone: whether sets meet as they must. For sets of any length, any size and any bits.
pub fn judge_meeting(size: u64, sets: &[u64]) -> Result<(), Refusal>
    ensures { code_in result ≡ meeting_code size sets.now }
{
    judge_each(size, sets)?;
    if first_breaking(Rule::Meets, size, sets).is_some() {
        return Err(Refusal::SetsApart);
    }
    Ok(())
}

// Setup's refusal: 13, 1, 2, 3, then 17. Sets that pass are compared once; of others it is then asked whether 3 or 17 is due.
pub fn judge(size: u64, sets: &[u64]) -> Result<(), Refusal>
    ensures { code_in result ≡ setup_code size sets.now }
{
    judge_each(size, sets)?;
    if first_breaking(Rule::Fits, size, sets).is_none() {
        return Ok(());
    }
    // Not by `judge_meeting`, which would judge each set once more.
    let apart = first_breaking(Rule::Meets, size, sets);
    Err(if apart.is_some() {
        Refusal::SetsApart
    } else {
        Refusal::NestedSets
    })
}

// An inner call: the line of the player's text that holds the set for which setup answers 2, 3 or 17.
pub fn fault_line(size: u64, sets: &[u64]) -> u64
    requires { (size ≤ site_limit) × (length sets.now ≡ site_limit) }
    ensures { result ≡ fault_line size sets.now }
{
    if let Some(faulty) = first_breaking(Rule::Names, size, sets) {
        return faulty + 1;
    }
    if let Some(missing) = first_breaking(Rule::Meets, size, sets) {
        return missing + 1;
    }
    first_breaking(Rule::Unnested, size, sets).unwrap_or(0) + 1
}
