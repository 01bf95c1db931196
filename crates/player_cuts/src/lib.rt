// A line of the player's text that may come in pieces: its bytes, joined.
#![tactic(auto)]

ghost use Rattle.std.specs.Prelude.{◌≤◌, length, take, drop};
ghost use Rattle.player_grammar.specs.Grammar.{line_limit};
ghost use Rattle.player_cuts.specs.Joins.{joined};
ghost use Rattle.player_cuts.specs.Lines.{JoinedTo};

use player_grammar::LINE_LIMIT;

// Room for a line and for one byte more, by which it is too long.
pub const LINE_ROOM: usize = LINE_LIMIT + 1;

// The line's bytes, of which the first `held` are read; how many bytes of the text are read; and whether the line can be judged.
#[derive(Clone, Copy)]
pub struct Joined {
    pub line: [u8; LINE_ROOM],
    pub held: usize,
    pub from: usize,
    pub whole: bool,
}

// An inner call: the bytes of the text from `from` on go behind the first `held` bytes of the line, up to its end.
pub fn join_line(line: [u8; LINE_ROOM], held: usize, text: &[u8], from: usize) -> Joined
    requires { (held ≤ line_limit) × (from ≤ length text.now) }
    ensures { JoinedTo (joined from (take held line) (drop from text.now)) result }
{
    let mut all = line;
    let mut n = held;
    for i in from..text.len() {
        let b = text[i];
        if b == 10 {
            return Joined {
                line: all,
                held: n,
                from: i + 1,
                whole: true,
            };
        }
        all[n] = b;
        n = n + 1;
        if n > LINE_LIMIT {
            return Joined {
                line: all,
                held: n,
                from: i + 1,
                whole: true,
            };
        }
    }
    Joined {
        line: all,
        held: n,
        from: text.len(),
        whole: false,
    }
}
