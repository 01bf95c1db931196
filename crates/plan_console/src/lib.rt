// A command whose words are arguments of the program: reads them, plans it and writes. Which bytes an argument has, and where bytes written go, no
// contract can say; the stored output of `plan_cases` shows it.
#![tactic(auto)]

ghost use Rattle.std.specs.Prelude.{◌+◌, ◌-◌};
ghost use Rattle.host_bytes.specs.Counts.{IsPrefixLen};
ghost use Rattle.plan_console.specs.Planned.{ReadsWord, ReadsWords, PlansWords};

use host_bytes::word;
use plan_lines::{PLAN_LENGTH, PlanPage};
use plan_numbers::{Given, nothing_given, with_word};
use plan_text::{Output, Stream, plan};
use std::io;
use std::io::Write;
use std::rt::Env;

// No word that Linux hands to a program is longer (MAX_ARG_STRLEN).
const WORD: usize = 131072;

// Prints what the command prints whose family's name is argument `at`, and whose numbers are the arguments behind it, up to and without `end`.
pub fn print_at<W: Write, E: Write>(
    rt: &impl Env,
    at: u8,
    end: usize,
    to: &mut W,
    errors: &mut E,
) -> io::Result<()> {
    let mut page = [0u8; PLAN_LENGTH];
    let output = plan_at(rt, at, end, &mut page);
    match output.to {
        Stream::Out => to.write_all(&page[..output.length]),
        Stream::Err => errors.write_all(&page[..output.length]),
    }
}

// Plans that command.
pub fn plan_at(rt: &impl Env, at: u8, end: usize, page: &mut PlanPage) -> Output
    ensures plans_words { PlansWords (end - (at + 1)) page.old page.new result }
    ensures prefix_len { IsPrefixLen result.length page.new }
{
    let given = read_words(rt, at as usize + 1, end);
    let mut name = [0u8; WORD];
    let length = word(rt, at as usize, &mut name);
    plan(&name[..length], given, page)
}

// The numbers that the arguments are from `first` on, up to and without `end`.
fn read_words(rt: &impl Env, first: usize, end: usize) -> Given
    ensures { ReadsWords (end - first) result }
{
    let mut given = nothing_given();
    for i in first..end {
        given = read_word(rt, i, given);
    }
    given
}

// With the word that argument i is.
fn read_word(rt: &impl Env, i: usize, given: Given) -> Given
    ensures { ReadsWord given result }
{
    let mut bytes = [0u8; WORD];
    let length = word(rt, i, &mut bytes);
    with_word(given, &bytes[..length])
}
