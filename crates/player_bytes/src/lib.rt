// Words and numbers as bytes, from a place of a lent page on; bytes compared.
#![tactic(auto)]

ghost use Rattle.std.specs.Prelude.{◌+◌, ◌%◌, ◌≤◌, ◌++◌, ◌≡◌, length};
ghost use Rattle.player_bytes.specs.Decimal.{decimal};
ghost use Rattle.player_bytes.specs.Same.{same};
ghost use Rattle.player_bytes.specs.Wrote.{Wrote};

// The last digit of n.
fn last_digit(n: u64) -> u8
    ensures { result ≡ 48 + n % 10 }
{
    b'0' + (n % 10) as u8
}

// How many digits n has.
fn places(n: u64) -> usize
    ensures { result ≡ length (decimal n) }
{
    let mut k = 1;
    let mut rest = n;
    while rest >= 10 {
        rest /= 10;
        k += 1;
    }
    k
}

// An inner call: the number n in decimal, from place `at` on, the last digit first; answers the place behind it.
pub fn put_decimal(page: &mut [u8], at: usize, n: u64) -> usize
    requires { at + length (decimal n) ≤ length page.old }
    ensures { Wrote (decimal n) at page.old page.new result }
{
    let end = at + places(n);
    let mut i = end - 1;
    let mut rest = n;
    while rest >= 10 {
        page[i] = last_digit(rest);
        rest /= 10;
        i -= 1;
    }
    page[i] = last_digit(rest);
    end
}

// An inner call: a word from place `at` on; answers the place behind it.
pub fn put_word(page: &mut [u8], at: usize, word: &[u8]) -> usize
    requires { at + length word.now ≤ length page.old }
    ensures { Wrote word.now at page.old page.new result }
{
    let end = at + word.len();
    page[at..end].copy_from_slice(word);
    end
}

// An inner call: a word and a number; answers the place behind them.
pub fn put_field(page: &mut [u8], at: usize, word: &[u8], n: u64) -> usize
    requires { at + length word.now + 20 ≤ length page.old }
    ensures wrote { Wrote (word.now ++ decimal n) at page.old page.new result }
    ensures upper_bound { result ≤ at + length word.now + 20 }
{
    let next = put_word(page, at, word);
    put_decimal(page, next, n)
}

// Whether two words are the same bytes.
pub fn same_bytes(x: &[u8], y: &[u8]) -> bool
    ensures { result ≡ same x.now y.now }
{
    x == y
}
