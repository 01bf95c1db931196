// The votes: a site takes the sites from it on, until their votes exceed half of the sum.
#![tactic(auto)]

ghost use Rattle.std.specs.Prelude.{◌≡◌, ◌+◌, ◌-◌, ◌^◌, ◌≤◌, ◌<◌};
ghost use Rattle.rig.specs.Limits.{site_limit};
ghost use Rattle.model.specs.Sets.{set_of};
ghost use Rattle.family_sets.specs.Meeting.{SiteTo};
ghost use Rattle.family_sets.specs.Rule.{set_by};
ghost use Rattle.family_votes.specs.Votes.{none_above, votes_listed, vote_sum, site_after, run_length, in_run, takes};
ghost use Rattle.family_votes.specs.Votes.{VotesFit, PastUnread, RunsShortest, VotesMeet};

use rig_reads::entry_of;

// "each 0 to 100"
const VOTE_MOST: u64 = 100;

// An inner call: whether none of the votes is above 100, and not all are 0.
pub fn votes_listed(size: u64, votes: &[u64]) -> bool
    requires { size ≤ site_limit }
    ensures { result ≡ votes_listed size votes.now }
{
    none_above(size, votes) && vote_sum(size, votes) != 0
}

fn none_above(size: u64, votes: &[u64]) -> bool
    ensures { result ≡ none_above size votes.now }
{
    votes
        .iter()
        .take(size as usize)
        .all(|&vote| vote <= VOTE_MOST)
}

// An inner call: the sum of the votes.
pub fn vote_sum(size: u64, votes: &[u64]) -> u64
    requires { VotesFit size votes.now }
    ensures { result ≡ vote_sum votes.now size }
{
    votes.iter().take(size as usize).sum()
}

// An inner call: the set of site n; 0 for a number that is no site.
pub fn set_by_votes(size: u64, votes: &[u64], sum: u64, n: u64) -> u64
    requires { VotesFit size votes.now × (sum ≡ vote_sum votes.now size) }
    ensures { result ≡ set_by (takes size votes.now) size n }
{
    if n < 1 {
        return 0;
    }
    if n <= size {
        return run_set(size, n, run_length(size, votes, sum, n));
    }
    0
}

// How many sites site n takes.
fn run_length(size: u64, votes: &[u64], sum: u64, n: u64) -> u64
    requires { VotesFit size votes.now × (sum ≡ vote_sum votes.now size) × SiteTo size n }
    ensures { result ≡ run_length size votes.now n }
{
    let mut taken = 0;
    let mut m = n;
    for k in 0..size {
        taken = taken + entry_of(votes, m);
        if 2 * taken > sum {
            return k + 1;
        }
        m = site_after(size, m);
    }
    0
}

// The set of the first sites from site n on, as many as `length`.
fn run_set(size: u64, n: u64, length: u64) -> u64
    requires { (size ≤ site_limit) × SiteTo size n × (length ≤ size) }
    ensures { result ≡ set_of (in_run size length n) size }
{
    let mut set = 0;
    let mut m = n;
    for k in 0..length {
        set = with_new_site(set, m);
        m = site_after(size, m);
    }
    set
}

// With the bit of site m added, for a set that does not have it.
fn with_new_site(set: u64, m: u64) -> u64
    requires { SiteTo site_limit m × (set < 2 ^ site_limit) }
    ensures { result ≡ set + 2 ^ (m - 1) }
{
    set + (1 << (m - 1))
}

// "after N again 1"
fn site_after(size: u64, m: u64) -> u64
    requires { SiteTo size m × (size ≤ site_limit) }
    ensures { result ≡ site_after size m }
{
    if m == size { 1 } else { m + 1 }
}

// What holds for every N is the contract of functions, so that it is checked with the code and shows in the list of proved functions. Each answers 0.
// Entries past N are not read.
pub fn past_unread() -> u8
    ensures { (result ≡ 0) × PastUnread }
{
    0
}

// Every two sets meet, of all votes that are not all 0.
pub fn votes_meet() -> u8
    ensures { (result ≡ 0) × VotesMeet }
{
    0
}

// And no shorter run would do.
pub fn runs_shortest() -> u8
    ensures { (result ≡ 0) × RunsShortest }
{
    0
}
