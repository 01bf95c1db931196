// Where a byte stands first in a part of a list of bytes.
#![tactic(auto)]

ghost use Rattle.std.specs.Prelude.{◌≡◌, ◌==◌, ◌+◌, ◌≤◌, length, position};
ghost use Rattle.byte_scan.specs.Bytes.{index_of, slice};

// The place of the first `byte`, if there is one.
fn first_place(part: &[u8], byte: u8) -> Option<usize>
    ensures { result ≡ position (λ b. b == byte) part.now }
{
    part.iter().position(|b| *b == byte)
}

// An inner call: the place of the first `byte` at `from` or behind it and before `to`, or `to` where there is none.
pub fn find(list: &[u8], from: usize, to: usize, byte: u8) -> usize
    requires ordered { from ≤ to }
    requires in_range { to ≤ length list.now }
    ensures value { result ≡ from + index_of byte (slice from to list.now) }
    ensures in_range { result ≤ to }
{
    match first_place(&list[from..to], byte) {
        Some(i) => from + i,
        None => to,
    }
}
