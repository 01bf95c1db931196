// A text of events from a reader, played to its end: the lines that document 01 fixes go to a writer. What is read is handed to the player
// as it comes, in buffers of a fixed size. A read that fails is the end of the input; a write that fails ends the run with its error.
#![tactic(auto)]

ghost use Rattle.std.specs.Prelude.{◌≤◌, length};
ghost use Rattle.player_state.specs.State.{PlayingFits};

use player_playing::{Played, finish, part};
use player_printing::PAGE_LENGTH;
use player_state::{Playing, begin, is_over};
use std::io;
use std::io::{Read, Write};

// How many bytes are read at once, and how many are written at once.
const INPUT: usize = 8_192;

const OUTPUT: usize = 32_768;

// An inner call: reads at most `room` bytes; answers how many came, 0 at the end of the input, and where it cannot be read.
pub fn read_some<R: Read>(source: &mut R, input: &mut [u8], room: usize) -> usize
    requires { room ≤ length input.old }
    ensures { result ≤ room }
{
    source.read(&mut input[..room]).unwrap_or(0)
}

// How many bytes are read at once: `room`, or the whole buffer of `len` bytes where that is none of 1 to `len`.
pub fn read_room(room: usize, len: usize) -> usize
    ensures { result ≤ len }
{
    if room == 0 { len } else { room.min(len) }
}

// An inner call: plays the text that `source` gives, from a state of the player on, read in pieces of at most `room` bytes. `put_part` gets what each part
// of a piece prints, and whether the run has ended, and `put_end` the player at the end of the input. The turns are no more than a number that no run uses
// up, since a proved loop has to end. The parts of a piece are played in the same function: the state is large, and a call would copy it.
pub fn play_pieces<R: Read, W: Write, P, E>(
    first: Playing,
    source: &mut R,
    room: usize,
    to: &mut W,
    mut put_part: P,
    put_end: E,
) -> io::Result<()>
where
    P: FnMut(&[u8], bool, &mut W) -> io::Result<()>,
    E: FnOnce(&Playing, &mut W) -> io::Result<()>,
    requires playing_fits { PlayingFits first }
    requires put_part_callable { P.IsAlwaysCallable put_part }
    requires put_end_callable { E.IsAlwaysCallable put_end }
{
    let mut input = [0u8; INPUT];
    let mut output = [0u8; OUTPUT];
    let most = read_room(room, INPUT);
    let mut r = Played {
        playing: first,
        taken: 0,
        written: 0,
    };
    for _ in 0..u64::MAX {
        let got = read_some(source, &mut input, most);
        if got == 0 {
            return put_end(&r.playing, to);
        }
        let mut from = 0;
        while from < got {
            r = part(r.playing, &input[from..got], &mut output);
            let over = is_over(r.playing);
            put_part(&output[..r.written], over, to)?;
            if over {
                return Ok(());
            }
            from += r.taken;
        }
    }
    Ok(())
}

// An inner call: plays the text that `source` gives, from a state of the player on, and prints its lines.
pub fn play_on<R: Read, W: Write>(
    first: Playing,
    source: &mut R,
    room: usize,
    to: &mut W,
) -> io::Result<()>
    requires { PlayingFits first }
{
    play_pieces(
        first,
        source,
        room,
        to,
        |printed, _, to| to.write_all(printed),
        |playing, to| print_end(playing, to),
    )
}

// What the player prints at the end of the input.
fn print_end<W: Write>(playing: &Playing, to: &mut W) -> io::Result<()> {
    let mut page = [0u8; PAGE_LENGTH];
    let n = finish(*playing, &mut page);
    to.write_all(&page[..n])
}

// Plays the text that `source` gives, from its first line on.
pub fn play_from<R: Read, W: Write>(source: &mut R, room: usize, to: &mut W) -> io::Result<()> {
    play_on(begin(), source, room, to)
}
