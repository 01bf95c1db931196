// What one line of the player's text means. A line is its bytes before byte 10.
#![tactic(auto)]

ghost use Rattle.std.specs.Prelude.{◌≡◌};
ghost use Rattle.player_grammar.specs.Grammar.{numbers, site_bit, set_line, move_line, event_form, meaning_of};

use player_numbers::read_number;
use rig::Rig;

// The bytes that a line may have before its byte 10.
pub const LINE_LIMIT: usize = 96;

// What a line may say.
#[derive(Clone, Copy)]
pub enum Line {
    Sites(u64),
    Set(u64),
    Ask(u64),
    Leave(u64),
    Move(u64, u64),
}

// A number's bit in a set.
fn site_bit(n: u64) -> u64
    ensures { result ≡ site_bit n }
{
    if n < 1 {
        return 1 << 63;
    }
    if n > Rig::SITES as u64 {
        return 1 << 63;
    }
    1 << (n - 1)
}

// The list behind `set=`: `at` is where the next number starts, `low` the least that may follow.
fn set_line(list: &[u8]) -> Option<Line>
    ensures { result ≡ set_line (numbers list.now) }
{
    let mut at = 0;
    let mut low = 0;
    let mut set = 0;
    while at <= list.len() {
        let end = byte_scan::find(list, at, list.len(), b',');
        let n = read_number(&list[at..end])?;
        if n < low {
            return None;
        }
        set |= site_bit(n);
        low = n + 1;
        at = end + 1;
    }
    Some(Line::Set(set))
}

// The two numbers behind `move=`.
fn move_line(list: &[u8]) -> Option<Line>
    ensures { result ≡ move_line (numbers list.now) }
{
    let end = byte_scan::find(list, 0, list.len(), b',');
    if end >= list.len() {
        return None;
    }
    let a = read_number(&list[..end])?;
    let b = read_number(&list[end + 1..])?;
    Some(Line::Move(a, b))
}

// What a line means that is an event's, if it is one.
fn event_line(line: &[u8]) -> Option<Line>
    ensures { result ≡ event_form line.now }
{
    if let Some(list) = line.strip_prefix(b"ask=") {
        return read_number(list).map(Line::Ask);
    }
    if let Some(list) = line.strip_prefix(b"leave=") {
        return read_number(list).map(Line::Leave);
    }
    if let Some(list) = line.strip_prefix(b"move=") {
        return move_line(list);
    }
    None
}

// What a line means, if anything.
pub fn meaning(line: &[u8]) -> Option<Line>
    ensures { result ≡ meaning_of line.now }
{
    if line.len() > LINE_LIMIT {
        return None;
    }
    if let Some(list) = line.strip_prefix(b"sites=") {
        return read_number(list).map(Line::Sites);
    }
    if let Some(list) = line.strip_prefix(b"set=") {
        return set_line(list);
    }
    event_line(line)
}
