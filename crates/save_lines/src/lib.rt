// A line of the saved text, written.
#![tactic(auto)]

ghost use Rattle.std.specs.Prelude.{◌+◌, ◌≤◌, cond, ◌∷◌, eqb, length, take};
ghost use Rattle.player_bytes.specs.Decimal.{decimal};
ghost use Rattle.player_bytes.specs.Wrote.{Wrote};
ghost use Rattle.save_lines.specs.Lines.{field, field_text};

use player_bytes::{put_decimal, put_word};

// One turn of `put_line`: a number behind others that start at `first`, with a comma where there are any; answers the place behind it.
fn put_number(page: &mut [u8], first: usize, next: usize, n: u64) -> usize
    requires { next + length (cond (eqb next first) (decimal n) (44 ∷ decimal n)) ≤ length page.old }
    ensures { Wrote (cond (eqb next first) (decimal n) (44 ∷ decimal n)) next page.old page.new result }
{
    if next == first {
        return put_decimal(page, next, n);
    }
    let behind = put_word(page, next, b",");
    put_decimal(page, behind, n)
}

// An inner call: the line of a word and the first `count` of the numbers, from place `at` on; answers the place behind it.
pub fn put_line(page: &mut [u8], at: usize, word: &[u8], numbers: &[u64], count: usize) -> usize
    requires { (count ≤ length numbers.now) × (at + length (field_text (field word.now (take count numbers.now))) ≤ length page.old) }
    ensures { Wrote (field_text (field word.now (take count numbers.now))) at page.old page.new result }
{
    let first = put_word(page, at, word);
    let mut next = first;
    for n in &numbers[..count] {
        next = put_number(page, first, next, *n);
    }
    put_word(page, next, b"\n")
}
