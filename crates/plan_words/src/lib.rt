// What the words of a command ask: `grid 3`, `billiard 7`, `plane 5`, `levels 2 3 5`, `votes 3 1 1 1`.
#![tactic(auto)]

ghost use Rattle.std.specs.Prelude.{◌≡◌};
ghost use Rattle.plan_words.specs.Words.{of_one, of_three, asked_by};

use family_rules::Family;
use plan_numbers::Given;

// What is asked: a family by its parameters, or one by the votes that are given.
#[derive(Clone, Copy)]
pub enum Asked {
    For(Family),
    Votes,
}

// What a family's name asks with the numbers behind it: nothing, where the words are wrong.
#[tactic(auto, using(std::proofs::lemmas::Bool::Decides::nat_tests, player_bytes::proofs::ByBytes::same_reads), unfolding(crate::specs::Words::asked_by, model::specs::Tables::at))]
pub fn asked_by(name: &[u8], given: Given) -> Option<Asked>
    ensures { result ≡ asked_by name.now given }
{
    if given.wrong {
        return None;
    }
    match (name, given.count) {
        (b"votes", _) => Some(Asked::Votes),
        (_, 1) => of_one(name, given.numbers[0]),
        (_, 3) => of_three(name, given.numbers[0], given.numbers[1], given.numbers[2]),
        _ => None,
    }
}

// What a name asks with one number.
#[tactic(auto, using(std::proofs::lemmas::Bool::Decides::nat_tests, player_bytes::proofs::ByBytes::same_reads), unfolding(crate::specs::Words::of_one))]
fn of_one(name: &[u8], n: u64) -> Option<Asked>
    ensures { result ≡ of_one name.now n }
{
    match name {
        b"grid" => Some(Asked::For(Family::Grid(n))),
        b"billiard" => Some(Asked::For(Family::Billiard(n))),
        b"plane" => Some(Asked::For(Family::Plane(n))),
        _ => None,
    }
}

// What a name asks with three numbers: rows, bays and levels.
#[tactic(auto, using(std::proofs::lemmas::Bool::Decides::nat_tests, player_bytes::proofs::ByBytes::same_reads), unfolding(crate::specs::Words::of_three))]
fn of_three(name: &[u8], rows: u64, bays: u64, levels: u64) -> Option<Asked>
    ensures { result ≡ of_three name.now rows bays levels }
{
    match name {
        b"levels" => Some(Asked::For(Family::Levels(rows, bays, levels))),
        _ => None,
    }
}
