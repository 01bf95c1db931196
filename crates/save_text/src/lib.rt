// The saved text of a state. The claims on it are the contracts of functions, so that they are checked with the code and show in the list of proved
// functions. Each answers 0.
#![tactic(auto)]

ghost use Rattle.std.specs.Prelude.{◌≡◌};
ghost use Rattle.save_text.specs.Claims.{ReadBack, WrittenBack, FirstSpelled, longest, NoneLonger};

// The length of the longest text.
pub const LONGEST: usize = 59_108;

// Room for every text.
pub type TextPage = [u8; LONGEST];

// A well-shaped state read from its own text is that state, and a text is accepted only if it is the text of what was read.
pub fn read_back() -> u8
    ensures { (result ≡ 0) × ReadBack × WrittenBack }
{
    0
}

// Where no fail under way has a number, the text is the one of request 2.2's version.
pub fn first_spelled() -> u8
    ensures { (result ≡ 0) × FirstSpelled }
{
    0
}

// The length of the longest text, for a caller who lends a buffer.
pub fn longest_length() -> usize
    ensures { result ≡ longest }
{
    LONGEST
}

// No well-shaped state has a longer text.
pub fn none_longer() -> u8
    ensures { (result ≡ 0) × NoneLonger }
{
    0
}
