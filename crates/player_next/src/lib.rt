// What stands at a place of a part of a text: the next whole line.
#![tactic(auto)]

ghost use Rattle.std.specs.Prelude.{◌≤◌, length};
ghost use Rattle.player_next.specs.Lines.{Finds};

use player_grammar::meaning;
use player_text::event_in;
use rig::Event;

// A whole line: its event, if it is one's, and the place of its byte 10.
#[derive(Clone, Copy)]
pub struct WholeLine {
    pub event: Option<Event>,
    pub end: usize,
}

// An inner call: the line that starts at `from`, if it ends within the text.
pub fn next_line(text: &[u8], from: usize) -> Option<WholeLine>
    requires { from ≤ length text.now }
    ensures { Finds text.now from result }
{
    let end = byte_scan::find(text, from, text.len(), 10);
    if end >= text.len() {
        return None;
    }
    let m = meaning(&text[from..end]);
    Some(WholeLine {
        event: event_in(m),
        end,
    })
}
