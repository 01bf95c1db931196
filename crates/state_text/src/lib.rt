// What the program `state` prints.
#![tactic(auto)]

ghost use Rattle.std.specs.Prelude.{◌≡◌, ◌≤◌, cond, length, drop};
ghost use Rattle.state_text.specs.State.{last_line};
ghost use Rattle.state_text.specs.Whole.{SavedAtEnd, SavedAtStop, SavePrinted, SaveFromPrinted, PlayFromPrinted};

// Where the last line of these bytes starts.
pub fn last_line(bytes: &[u8]) -> usize
    ensures bytes_value { drop result bytes.now ≡ last_line bytes.now }
    ensures upper_bound { result ≤ length bytes.now }
{
    let mut start = 0;
    let mut ended = true;
    for (i, byte) in bytes.iter().enumerate() {
        if ended {
            start = i;
        }
        ended = *byte == b'\n';
    }
    start
}

// Whatever the calls are given and lent: what is printed at the end, and the last line where a call ends the run, is what the text prints, saved; and so the three
// commands print what they should. The claims
// are the contract of a function, so that they are checked with the code. It answers 0.
pub fn saved_whole() -> u8
    ensures { (result ≡ 0) × SavedAtEnd × SavedAtStop × SavePrinted × SaveFromPrinted × PlayFromPrinted }
{
    0
}
