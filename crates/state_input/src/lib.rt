// A text from a reader, in fixed buffers, played and saved: it reads, calls and writes, and nothing else. A read or a write that fails ends the
// run with its error.
#![tactic(auto)]

ghost use Rattle.player_state.specs.State.{PlayingFits};

use player_console::play_pieces;
use player_state::Playing;
use save_text::LONGEST;
use state_saving::save_end;
use state_text::last_line;
use std::io;
use std::io::{Read, Write};

// An inner call: plays the text that `source` gives, from a state of the player on, and prints what is saved: at its end, or where it stops, the line that stops it. What the
// events print is not written.
pub fn save_on<R: Read, W: Write>(
    first: Playing,
    source: &mut R,
    room: usize,
    to: &mut W,
) -> io::Result<()>
    requires { PlayingFits first }
{
    play_pieces(
        first,
        source,
        room,
        to,
        |printed, over, to| if over {
            print_last(printed, to)
        } else {
            Ok(())
        },
        |playing, to| print_saved(playing, to),
    )
}

// The last line of these bytes.
fn print_last<W: Write>(bytes: &[u8], to: &mut W) -> io::Result<()> {
    to.write_all(&bytes[last_line(bytes)..])
}

// What is saved at the end of the input.
fn print_saved<W: Write>(playing: &Playing, to: &mut W) -> io::Result<()> {
    let mut page = [0u8; LONGEST];
    let n = save_end(*playing, &mut page);
    to.write_all(&page[..n])
}
