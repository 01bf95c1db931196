// The lines that a plan prints, as bytes at the start of a page that the caller lends.
#![tactic(auto)]

ghost use Rattle.std.specs.Prelude.{◌+◌, ◌*◌, ◌≤◌, true, cond, ◌≡◌, [], ◌∷◌, ◌++◌, eqb, length};
ghost use Rattle.model.specs.Sets.{member};
ghost use Rattle.player_bytes.specs.Decimal.{decimal};
ghost use Rattle.player_bytes.specs.Wrote.{Wrote};
ghost use Rattle.player_printing.specs.Printing.{Printed};
ghost use Rattle.rig.specs.Limits.{site_limit};
ghost use Rattle.plan_lines.specs.Lines.{line_room, set_text, set_texts, code_text, setup_text};

use player_bytes::{put_decimal, put_field, put_word};
use rig::Rig;
use rig_members::each_member;

// A page holds the longest text: the line `sites=` and a line `set=` for each site.
pub const PLAN_LENGTH: usize = 8192;

pub type PlanPage = [u8; PLAN_LENGTH];

// A line of a word and a number; answers its length.
fn field_line(page: &mut [u8], word: &[u8], n: u64) -> usize
    requires { length word.now + 21 ≤ length page.old }
    ensures wrote { Wrote ((word.now ++ decimal n) ++ (10 ∷ [])) 0 page.old page.new result }
    ensures upper_bound { result ≤ length word.now + 21 }
{
    let end = put_field(page, 0, word, n);
    put_word(page, end, b"\n")
}

// One turn of `set_line`: j, a member of the set, behind the members below it, which start at `first`; answers the place behind it.
fn put_member(page: &mut [u8], first: usize, next: usize, set: u64, j: u64) -> usize
    requires { (member set j ≡ true) × (next + 21 ≤ length page.old) }
    ensures { Wrote (cond (eqb next first) (decimal j) (44 ∷ decimal j)) next page.old page.new result }
{
    if next == first {
        return put_decimal(page, next, j);
    }
    put_field(page, next, b",", j)
}

// The line of a set, from place `at` on; answers the place behind it.
fn set_line(page: &mut [u8], at: usize, set: u64) -> usize
    requires { at + line_room ≤ length page.old }
    ensures { Wrote (set_text set) at page.old page.new result }
{
    let first = put_word(page, at, b"set=");
    let mut next = first;
    for j in each_member(Rig::SITES as u64, set) {
        next = put_member(page, first, next, set, j);
    }
    put_word(page, next, b"\n")
}

// The lines of the first n sets, from place `at` on; answers the place behind them.
fn set_lines(page: &mut [u8], at: usize, n: usize, sets: &[u64]) -> usize
    requires { (at + line_room * n ≤ length page.old) × (n ≤ length sets.now) }
    ensures { Wrote (set_texts sets.now n) at page.old page.new result }
{
    let mut next = at;
    for set in &sets[..n] {
        next = set_line(page, next, *set);
    }
    next
}

// The line of a refusal; answers its length.
pub fn code_line(page: &mut PlanPage, code: u64) -> usize
    ensures { Printed (code_text code) page.old page.new result }
{
    field_line(page, b"code=", code)
}

// An inner call: the line `sites=` of n sites and the lines of their sets; answers their length.
pub fn setup_lines(page: &mut PlanPage, n: u64, sets: &[u64; Rig::SITES]) -> usize
    requires { n ≤ site_limit }
    ensures { Printed (setup_text n sets.now) page.old page.new result }
{
    let next = field_line(page, b"sites=", n);
    set_lines(page, next, n as usize, sets)
}
