// What the numbers of a rig say: a set's members, the range of a site and of a number.
#![tactic(auto)]

ghost use Rattle.std.specs.Prelude.{◌≡◌, ◌&&◌};
ghost use Rattle.model.specs.Sets.{member};
ghost use Rattle.model.specs.Tables.{at};
ghost use Rattle.model.specs.State.{in_range, has_member};
ghost use Rattle.model.specs.Shape.{is_number, is_given};

use rig::Rig;

// Site j is a member of the set.
#[tactic(auto, using(crate::proofs::Members::member_bits))]
pub fn is_member(set: u64, j: u64) -> bool
    ensures { result ≡ member set j }
{
    1 <= j && j <= 64 && (set >> (j - 1)) % 2 == 1
}

// What site k has in a list with an entry for each site, 0 outside it.
pub fn entry_of(entries: &[u64], k: u64) -> u64
    ensures { result ≡ at 0 entries.now k }
{
    if k == 0 || k > entries.len() as u64 {
        return 0;
    }
    entries[(k - 1) as usize]
}

// Site k is tied to arbiter j: j is in k's set.
pub fn tied(sets: &[u64; Rig::SITES], k: u64, j: u64) -> bool
    ensures { result ≡ has_member sets.now k j }
{
    is_member(entry_of(sets, k), j)
}

// Two sites are tied to arbiter j.
pub fn both_tied(sets: &[u64; Rig::SITES], k: u64, heir: u64, j: u64) -> bool
    ensures { result ≡ has_member sets.now k j && has_member sets.now heir j }
{
    tied(sets, k, j) && tied(sets, heir, j)
}

// One of the sites 1 to N.
pub fn is_site(size: u64, k: u64) -> bool
    ensures { result ≡ in_range size k }
{
    1 <= k && k <= size
}

// "Clocks, sequence and grant numbers: 0 to 2,000,000."
#[tactic(auto, unfolding(model::specs::Shape::is_number))]
pub fn is_number(n: u64) -> bool
    ensures { result ≡ is_number n }
{
    n <= Rig::NUMBERS
}

// Such a number where there is one: at least 1.
#[tactic(auto, unfolding(model::specs::Shape::is_given, model::specs::Shape::is_number))]
pub fn is_given(n: u64) -> bool
    ensures { result ≡ is_given n }
{
    1 <= n && n <= Rig::NUMBERS
}
