// The members of a set from one to the next, ascending: the lowest one that is left, and what is left without it.
#![tactic(auto)]

ghost use Rattle.std.specs.Prelude.{◌≡◌, true, false, ◌<◌, ◌≤◌};
ghost use Rattle.std.specs.Iterator.{at_most};
ghost use Rattle.model.specs.Sets.{member};
ghost use Rattle.rig_members.specs.Walk.{word_bits, within, lowest_member, without_member, with_member, members_in, VisitsLowest, WalkVisits};

// An inner call: where a walk of the members among the sites 1 to n begins.
pub fn members_within(n: u64, set: u64) -> u64
    requires { n < word_bits }
    ensures { result ≡ within n set }
{
    set & ((1 << n) - 1)
}

// An inner call: the lowest member of a set that has one.
pub fn lowest_member(set: u64) -> u64
    requires { 0 < set }
    ensures { result ≡ lowest_member set }
{
    u64::trailing_zeros(set) as u64 + 1
}

// An inner call: the set without its member j.
pub fn without_member(set: u64, j: u64) -> u64
    requires { member set j ≡ true }
    ensures { result ≡ without_member set j }
{
    set - (1 << (j - 1))
}

// An inner call: the set with site j, which is none of its members.
pub fn with_member(set: u64, j: u64) -> u64
    requires { (1 ≤ j) × (j ≤ word_bits) × (member set j ≡ false) }
    ensures { result ≡ with_member set j }
{
    set | (1 << (j - 1))
}

// The members of a set that a walk has still to visit.
#[derive(Drop)]
pub struct MemberWalk {
    pub left: u64,
}

// An inner call: a walk of the members among the sites 1 to n, ascending.
pub fn each_member(n: u64, set: u64) -> MemberWalk
    requires { n < word_bits }
    ensures { result.left ≡ within n set }
{
    MemberWalk {
        left: members_within(n, set),
    }
}

impl Iterator for MemberWalk {
    type Item = u64;

    ghost next_gives = { VisitsLowest (λ s. s.left) };

    ghost remaining = { λ s. at_most (members_in s.left) };

    // The lowest member that is left.
    fn next(&mut self) -> Option<u64> {
        if self.left == 0 {
            return None;
        }
        let j = lowest_member(self.left);
        self.left = without_member(self.left, j);
        Some(j)
    }
}

// What holds of every set is the contract of a function, so that it is checked with the code and shows in the list of proved functions. It
// answers 0. A walk visits the members, ascending, each once, and no other site.
pub fn walk_visits() -> u8
    ensures { (result ≡ 0) × WalkVisits }
{
    0
}
