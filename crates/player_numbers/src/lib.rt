// The numbers of the player's text.
#![tactic(auto)]

ghost use Rattle.std.specs.Prelude.{◌+◌, ◌-◌, ◌*◌, ◌≤◌, true, ◌≡◌};
ghost use Rattle.player_numbers.specs.Numbers.{is_digit, no_leading_zero, number};

// Whether a byte is a digit.
pub fn is_digit(b: u8) -> bool
    ensures { result ≡ is_digit b }
{
    if b < b'0' {
        return false;
    }
    b <= b'9'
}

// The number n with one digit behind it.
fn with_digit(n: u64, b: u8) -> u64
    requires { (n ≤ 999) × (is_digit b ≡ true) }
    ensures { result ≡ n * 10 + (b - 48) }
{
    n * 10 + (b - b'0') as u64
}

// Whether there is one byte, or more of which the first is not `0`.
pub fn no_leading_zero(part: &[u8]) -> bool
    ensures { result ≡ no_leading_zero part.now }
{
    if part.len() == 0 {
        return false;
    }
    if part.len() == 1 {
        return true;
    }
    part[0] != b'0'
}

// The number that all of these bytes are, if they are one.
pub fn read_number(part: &[u8]) -> Option<u64>
    ensures { result ≡ number part.now }
{
    if !no_leading_zero(part) {
        return None;
    }
    let mut n = 0;
    for b in part {
        if !is_digit(*b) {
            return None;
        }
        n = with_digit(n, *b);
        if n > 999 {
            return None;
        }
    }
    Some(n)
}
