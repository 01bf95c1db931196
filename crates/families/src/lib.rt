// The families of request sets: the grid, the billiard, the plane and the levels by their parameters, and the votes.
#![tactic(auto)]

ghost use Rattle.std.specs.Prelude.{◌≡◌, ℕ, Bool, length, IfOk, OnOk};
ghost use Rattle.refusals.specs.Numbers.{code_in};
ghost use Rattle.rig.specs.Limits.{site_limit};
ghost use Rattle.model.specs.Setup.{setup_code};
ghost use Rattle.family_sets.specs.Rule.{sets_by};
ghost use Rattle.families.specs.Filling.{AnswersSets};
ghost use Rattle.family_rules.specs.Family.{size_of};
ghost use Rattle.families.specs.Made.{family_code, filled, billiard_set};
ghost use Rattle.families.specs.ByVotes.{votes_code, filled_by_votes, VotesKept};

use family_rules::{Family, is_listed, set_at, size_of};
use family_votes::{set_by_votes, vote_sum, votes_listed};
use refusals::Refusal;
use rig::Rig;
use rig_reads::is_site;

// Writes the sets of the family's sites into a buffer with an entry for each site; answers how many sites it has.
pub fn generate(family: Family, sets: &mut [u64]) -> Result<u64, Refusal>
    ensures determined { (code_in result ≡ family_code family (length sets.old)) × IfOk result (λ n. n ≡ size_of family) × (sets.new ≡ filled family sets.old) }
    ensures accepted { IfOk result (λ n. setup_code n sets.new ≡ 0) }
{
    if sets.len() != Rig::SITES {
        return Err(Refusal::WrongLength);
    }
    if !is_listed(family) {
        return Err(Refusal::Unlisted);
    }
    fill(|n| set_at(family, n), sets);
    Ok(size_of(family))
}

// The set of site n in the billiard of q, for q of 3, 5, 7 and 9; 0 for another q or n.
pub fn billiard_set(q: u64, n: u64) -> u64
    ensures { result ≡ billiard_set q n }
{
    if q == 9 {
        return set_at(Family::Billiard(q), n);
    }
    if is_listed(Family::Billiard(q)) {
        return set_at(Family::Billiard(q), n);
    }
    0
}

// Writes what a call answers of each site into a buffer with an entry for each site.
fn fill<F: Fn(u64) -> u64>(set_of: F, sets: &mut [u64])
    requires callable { F.IsAlwaysCallable set_of }
    requires long { length sets.old ≡ site_limit }
    ensures { (takes : ℕ → ℕ → Bool) (size : ℕ) → AnswersSets (F.post set_of) takes size → sets.new ≡ sets_by takes size }
{
    for (i, set) in sets.iter_mut().enumerate() {
        *set = set_of(i as u64 + 1);
    }
}

// Writes the sets of n sites by their votes into a buffer with an entry for each site; the votes stand in one as long. It may be turned down with 13, 1 or 16.
pub fn generate_by_votes(n: u64, votes: &[u64], sets: &mut [u64]) -> Result<(), Refusal>
    ensures determined { (code_in result ≡ votes_code n votes.now (length sets.old)) × (sets.new ≡ filled_by_votes n votes.now sets.old) }
    ensures kept { OnOk result (VotesKept n votes.now sets.new) }
{
    judge_votes(n, votes, sets.len())?;
    let sum = vote_sum(n, votes);
    fill(|site| set_by_votes(n, votes, sum, site), sets);
    Ok(())
}

// Whether votes are turned down, for a buffer of so many sets.
fn judge_votes(n: u64, votes: &[u64], entries: usize) -> Result<(), Refusal>
    ensures { code_in result ≡ votes_code n votes.now entries }
{
    if entries != Rig::SITES {
        return Err(Refusal::WrongLength);
    }
    if votes.len() != Rig::SITES {
        return Err(Refusal::WrongLength);
    }
    if !is_site(Rig::SITES as u64, n) {
        return Err(Refusal::SiteCount);
    }
    if !votes_listed(n, votes) {
        return Err(Refusal::FaultyVotes);
    }
    Ok(())
}
