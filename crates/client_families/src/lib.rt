// A caller of the calls on families, of `setup::setup` and of `setup_faults::judge_meeting`: each promise follows from their contracts alone.
#![tactic(auto)]

ghost use Rattle.std.specs.Prelude.{◌≡◌, ◌⊎◌};
ghost use Rattle.rig.specs.Limits.{site_limit};
ghost use Rattle.refusals.specs.Numbers.{code_in};
ghost use Rattle.families.specs.ByVotes.{votes_code};
ghost use Rattle.client_families.specs.Rig.{IsFamilyRig, IsVotesRig, nine_sets, refusal_numbers};

use families::{billiard_set, generate, generate_by_votes};
use family_rules::Family;
use refusals::Refusal;
use rig::Rig;
use setup::setup;
use setup_faults::judge_meeting;

// Generates a family's sets and sets them up.
pub fn family_rig(family: Family) -> Result<Rig, Refusal>
    ensures { IsFamilyRig family result }
{
    let mut sets = [0u64; Rig::SITES];
    let size = generate(family, &mut sets)?;
    setup(size, &sets)
}

// Generates the sets of n sites by their votes and sets them up. Where they are made, setup accepts them or answers 17.
pub fn votes_rig(n: u64, votes: &[u64; Rig::SITES]) -> Result<Rig, Refusal>
    ensures determined { IsVotesRig n votes.now result }
    ensures judged { votes_code n votes.now site_limit ≡ 0 → (code_in result ≡ 0) ⊎ (code_in result ≡ 17) }
{
    let mut sets = [0u64; Rig::SITES];
    generate_by_votes(n, votes, &mut sets)?;
    setup(n, &sets)
}

// Generates the sets of n sites by their votes and judges them by the codes 13, 1, 2 and 3 alone. Where they are made, they get none of these.
pub fn votes_meeting(n: u64, votes: &[u64; Rig::SITES]) -> Result<(), Refusal>
    ensures { code_in result ≡ votes_code n votes.now site_limit }
{
    let mut made = [0u64; Rig::SITES];
    generate_by_votes(n, votes, &mut made)?;
    judge_meeting(n, &made)
}

// The sets of sites 11 and 34 in the billiard of q = 9, by the rule itself.
pub fn nine_sets() -> [u64; 2]
    ensures { result ≡ nine_sets }
{
    [billiard_set(9, 11), billiard_set(9, 34)]
}

// The numbers of all reasons to turn an input down, in the order of document 01 and of its requests.
pub fn numbers() -> [u64; 17]
    ensures { result ≡ refusal_numbers }
{
    [
        Refusal::SiteCount.number(),
        Refusal::FaultySet.number(),
        Refusal::SetsApart.number(),
        Refusal::UnknownSite.number(),
        Refusal::NotResting.number(),
        Refusal::NotInside.number(),
        Refusal::NothingSent.number(),
        Refusal::ListFull.number(),
        Refusal::LimitReached.number(),
        Refusal::Misshapen.number(),
        Refusal::Malformed.number(),
        Refusal::Unlisted.number(),
        Refusal::WrongLength.number(),
        Refusal::NotAState.number(),
        Refusal::ShortBuffer.number(),
        Refusal::FaultyVotes.number(),
        Refusal::NestedSets.number(),
    ]
}
