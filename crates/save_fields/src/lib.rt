// What a site and an arbiter have as the numbers of a line, and back.
#![tactic(auto)]

ghost use Rattle.std.specs.Prelude.{cond, [], ◌∷◌, ◌≡◌};
ghost use Rattle.save_fields.specs.Fields.{mode_numbers, mode_from, holder_numbers, arbiter_from};
ghost use Rattle.save_fields.specs.Values.{value_of, first_five};

use rig::{Arbiter, Mode, Rig};

// The numbers of a line, 0 behind the last one.
pub type Numbers = [u64; Rig::SITES];

// The numbers of a line that is to be written: the first `count` of them; 0 behind.
#[derive(Clone, Copy)]
pub struct Value {
    pub numbers: Numbers,
    pub count: usize,
}

// Five numbers and 0 behind them, of which the first `count` are those of the line.
pub fn first_five(a: u64, b: u64, c: u64, d: u64, e: u64, count: usize) -> Value
    ensures { result ≡ first_five a b c d e count }
{
    let mut numbers = [0; Rig::SITES];
    numbers[0] = a;
    numbers[1] = b;
    numbers[2] = c;
    numbers[3] = d;
    numbers[4] = e;
    Value { numbers, count }
}

pub fn number_value(n: u64) -> Value
    ensures { result ≡ value_of (n ∷ []) }
{
    first_five(n, 0, 0, 0, 0, 1)
}

// A mark as a number.
fn mark(set: bool) -> u64
    ensures { result ≡ cond set 1 0 }
{
    if set { 1 } else { 0 }
}

pub fn mode_value(mode: Mode) -> Value
    ensures { result ≡ value_of (mode_numbers mode) }
{
    match mode {
        Mode::Rest => first_five(0, 0, 0, 0, 0, 1),
        Mode::Waiting { seq, failed } => first_five(1, seq, mark(failed), 0, 0, 3),
        Mode::Inside => first_five(2, 0, 0, 0, 0, 1),
    }
}

pub fn holder_value(a: Arbiter) -> Value
    ensures { result ≡ value_of (holder_numbers a) }
{
    if a.holder == 0 {
        return first_five(0, 0, 0, 0, 0, 1);
    }
    first_five(a.holder, a.seq, 0, 0, 0, 2)
}

pub fn mode_from(ns: &Numbers) -> Mode
    ensures { result ≡ mode_from ns.now }
{
    let kind = ns[0];
    if kind == 0 {
        return Mode::Rest;
    }
    if kind == 1 {
        return Mode::Waiting {
            seq: ns[1],
            failed: ns[2] != 0,
        };
    }
    Mode::Inside
}

pub fn arbiter_from(grant: u64, ns: &Numbers) -> Arbiter
    ensures { result ≡ arbiter_from grant ns.now }
{
    Arbiter {
        grant,
        holder: ns[0],
        seq: ns[1],
    }
}
