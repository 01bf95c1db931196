// The numbers that the words of a command are, behind a family's name.
#![tactic(auto)]

ghost use Rattle.std.specs.Prelude.{◌+◌, ◌-◌, ◌*◌, min, true, ◌≡◌, set};
ghost use Rattle.player_numbers.specs.Numbers.{is_digit};
ghost use Rattle.plan_numbers.specs.Given.{largest, parameter, nothing_given, gone_wrong, with_number, with_word};

use player_numbers::{is_digit, no_leading_zero};
use rig::Rig;

// The words so far: whether one is no number, how many are numbers, and the first of these, one for each site of the largest rig.
// What may not change: `plan_text::plan` takes it, with its flag `wrong`.
#[derive(Clone, Copy)]
pub struct Given {
    pub wrong: bool,
    pub count: u64,
    pub numbers: [u64; Rig::SITES],
}

// Before the first word.
pub fn nothing_given() -> Given
    ensures { result ≡ nothing_given }
{
    Given {
        wrong: false,
        count: 0,
        numbers: [0; Rig::SITES],
    }
}

// With one word more.
pub fn with_word(given: Given, word: &[u8]) -> Given
    ensures { result ≡ with_word given word.now }
{
    let Some(n) = number_of(word) else {
        return gone_wrong(given);
    };
    with_number(given, n)
}

// With a word that is no number.
fn gone_wrong(given: Given) -> Given
    ensures { result ≡ gone_wrong given }
{
    Given {
        wrong: true,
        ..given
    }
}

// With one number more, of which only so many are kept as a rig may have sites.
fn with_number(given: Given, n: u64) -> Given
    ensures { result ≡ with_number given n }
{
    let mut numbers = given.numbers;
    put_at(&mut numbers, given.count, n);
    Given {
        count: given.count.saturating_add(1),
        numbers,
        ..given
    }
}

// Writes entry i, if there is one.
fn put_at(numbers: &mut [u64], i: u64, n: u64)
    ensures { numbers.new ≡ set numbers.old i n }
{
    if i >= numbers.len() as u64 {
        return;
    }
    numbers[i as usize] = n;
}

// The number that a word is, of any value: above the largest number of 64 bits it is that one.
fn number_of(word: &[u8]) -> Option<u64>
    ensures { result ≡ parameter word.now }
{
    if !no_leading_zero(word) {
        return None;
    }
    let mut n = 0;
    for b in word {
        if !is_digit(*b) {
            return None;
        }
        n = with_digit(n, *b);
    }
    Some(n)
}

// The number n with one digit behind it, at most the largest.
fn with_digit(n: u64, b: u8) -> u64
    requires { is_digit b ≡ true }
    ensures { result ≡ min (n * 10 + (b - 48)) largest }
{
    n.saturating_mul(10).saturating_add((b - b'0') as u64)
}
