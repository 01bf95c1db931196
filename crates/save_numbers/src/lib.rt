// A line of the saved text read: where it ends, and its numbers.
#![tactic(auto)]

ghost use Rattle.std.specs.Prelude.{◌≤◌, true, cond, ◌≡◌, length, get_or, set};
ghost use Rattle.player_numbers.specs.Numbers.{is_digit};
ghost use Rattle.save_lines.specs.Lines.{grown, numbers_in};
ghost use Rattle.save_numbers.specs.Places.{line_end, next_line};

use player_numbers::is_digit;
use rig::Rig;
use save_fields::Numbers;

// An inner call: the place of the first byte 10 from place `at` on, or the text's length.
pub fn end_of_line(text: &[u8], at: usize) -> usize
    requires { at ≤ length text.now }
    ensures value { result ≡ line_end text.now at }
    ensures upper_bound { result ≤ length text.now }
{
    byte_scan::find(text, at, text.len(), 10)
}

// The place behind a line that ends at `end`, in a text of `len` bytes.
pub fn next_line(end: usize, len: usize) -> usize
    ensures { result ≡ next_line end len }
{
    if end < len {
        return end + 1;
    }
    len
}

// The number n with one digit behind it; a number past the limit stays as it is.
fn grown(n: u64, b: u8) -> u64
    requires { is_digit b ≡ true }
    ensures { result ≡ grown n b }
{
    if n > Rig::NUMBERS {
        return n;
    }
    n * 10 + (b - b'0') as u64
}

// One turn of `numbers_in`: a digit is put behind the number at place i.
fn put_digit(numbers: &mut [u64], i: usize, b: u8)
    ensures { numbers.new ≡ cond (is_digit b) (set numbers.old i (grown (get_or numbers.old i 0) b)) numbers.old }
{
    if !is_digit(b) {
        return;
    }
    if i >= numbers.len() {
        return;
    }
    numbers[i] = grown(numbers[i], b);
}

// What stands between two numbers of a line.
const COMMA: u8 = b',';

// The numbers of a line; 0 stands for those that it lacks.
pub fn numbers_in(line: &[u8]) -> Numbers
    ensures { result ≡ numbers_in line.now }
{
    let mut numbers = [0; Rig::SITES];
    let mut i = 0;
    for b in line {
        if *b == COMMA {
            i = i + 1;
        } else {
            put_digit(&mut numbers, i, *b);
        }
    }
    numbers
}
