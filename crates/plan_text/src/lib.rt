// What a command prints: the lines of a family, the line of a refusal, or how to use it.
#![tactic(auto)]

ghost use Rattle.player_printing.specs.Printing.{Printed};
ghost use Rattle.plan_text.specs.Plan.{family_text, votes_text, usage_text, Prints};

use families::{generate, generate_by_votes};
use family_rules::Family;
use plan_lines::{PlanPage, code_line, setup_lines};
use plan_numbers::Given;
use plan_words::{Asked, asked_by};
use player_bytes::put_word;
use rig::Rig;

// Where a text goes: to standard output or standard error.
#[derive(Clone, Copy, PartialEq, Eq)]
pub enum Stream {
    Out,
    Err,
}

// Where a text goes, and its length on the page.
#[derive(Clone, Copy)]
pub struct Output {
    pub to: Stream,
    pub length: usize,
}

// What a family's name prints with the numbers behind it.
pub fn plan(name: &[u8], given: Given, page: &mut PlanPage) -> Output
    ensures { Prints name.now given page.old page.new result }
{
    match asked_by(name, given) {
        Some(Asked::For(family)) => Output {
            to: Stream::Out,
            length: family_lines(family, page),
        },
        Some(Asked::Votes) => Output {
            to: Stream::Out,
            length: votes_lines(given, page),
        },
        None => Output {
            to: Stream::Err,
            length: usage(page),
        },
    }
}

// A family's lines, or the line of its refusal; answers their length.
fn family_lines(family: Family, page: &mut PlanPage) -> usize
    ensures { Printed (family_text family) page.old page.new result }
{
    let mut sets = [0u64; Rig::SITES];
    match generate(family, &mut sets) {
        Ok(size) => setup_lines(page, size, &sets),
        Err(refusal) => code_line(page, refusal.number()),
    }
}

// The lines of a family by votes, or the line of its refusal; answers their length.
fn votes_lines(given: Given, page: &mut PlanPage) -> usize
    ensures { Printed (votes_text given.count given.numbers) page.old page.new result }
{
    let mut sets = [0u64; Rig::SITES];
    match generate_by_votes(given.count, &given.numbers, &mut sets) {
        Ok(()) => setup_lines(page, given.count, &sets),
        Err(reason) => code_line(page, reason.number()),
    }
}

// How to use the program; answers the text's length.
fn usage(page: &mut PlanPage) -> usize
    ensures { Printed usage_text page.old page.new result }
{
    put_word(
        page,
        0,
        b"usage: ./plan grid SIDE | billiard Q | plane P | levels ROWS BAYS LEVELS | votes VOTE ...\n",
    )
}
