// The program `state`: reads the words of a command, the file that they name and the events, plays them and writes. Which bytes an argument or a file
// has, and where bytes written go, no contract can say; the stored output of `state_cases` shows it.
#![tactic(auto)]

ghost use Rattle.std.specs.Prelude.{IfSome};
ghost use Rattle.host_bytes.specs.Counts.{IsPrefixLen};
ghost use Rattle.player_state.specs.State.{PlayingFits};
ghost use Rattle.player_state.specs.declared.Playing.{Playing};

use host_bytes::{PATH, open_named, put_failure, read_full, word};
use player_console::play_on;
use player_state::{Playing, begin};
use save_text::LONGEST;
use state_input::save_on;
use state_resuming::resume;
use state_saving::put_stop;
use state_words::{Command, command_of};
use std::io;
use std::io::{Read, Write};
use std::rt::{Env, Files};

// No saved text is longer than the longest: a file with a byte more is none.
const FILE: usize = LONGEST + 1;

// No word that Linux hands to a program is longer (MAX_ARG_STRLEN).
const WORD: usize = 131_072;

// Does what the command of `count` words asks whose first word behind its name is argument `at`, with the events or the text that `source` gives, read in
// pieces of at most `room` bytes.
pub fn run<R: Read, W: Write, E: Write>(
    rt: &(impl Env + Files),
    at: u8,
    count: usize,
    source: &mut R,
    room: usize,
    to: &mut W,
    errors: &mut E,
) -> io::Result<()> {
    let mut bytes = [0u8; WORD];
    let length = word(rt, at as usize, &mut bytes);
    let file = at as usize + 1;
    match command_of(count, &bytes[..length]) {
        Some(Command::Save) => save_on(begin(), source, room, to),
        Some(Command::SaveFrom) => go_on(rt, file, source, room, to, errors, save_on),
        Some(Command::PlayFrom) => go_on(rt, file, source, room, to, errors, play_on),
        None => print_usage(errors),
    }
}

// How to use the program.
fn print_usage<E: Write>(errors: &mut E) -> io::Result<()> {
    errors.write_all(
        b"usage: ./state save < TEXT, ./state save SAVED < EVENTS, ./state play SAVED < EVENTS\n",
    )
}

// Goes on by `step` from the file that argument `at` names.
fn go_on<R: Read, W: Write, E: Write, F>(
    rt: &(impl Env + Files),
    at: usize,
    source: &mut R,
    room: usize,
    to: &mut W,
    errors: &mut E,
    step: F,
) -> io::Result<()>
where
    F: FnOnce(Playing, &mut R, usize, &mut W) -> io::Result<()>,
    requires { (p : Playing) (s : _) (n : _) (w : _) → PlayingFits p → F.pre step p s n w }
{
    let mut text = [0u8; FILE];
    let Some(length) = read_file(rt, at, &mut text, errors) else {
        return Ok(());
    };
    let resumed = resume(&text[..length]);
    if resumed.code != 0 {
        return print_stop(resumed.code, to);
    }
    step(resumed.playing, source, room, to)
}

// Reads the file that argument `at` names, as much of it as there is room for; answers how many bytes. One that cannot be read is taken as empty. Where it
// cannot be opened, says so to standard error.
fn read_file<E: Write>(
    rt: &(impl Env + Files),
    at: usize,
    text: &mut [u8],
    errors: &mut E,
) -> Option<usize>
    ensures { IfSome result (λ n. IsPrefixLen n text.new) }
{
    let mut path = [0u8; PATH];
    let length = word(rt, at, &mut path);
    match open_named(rt, &path[..length]) {
        Ok(mut file) => Some(read_full(&mut file, text).unwrap_or(0)),
        Err(error) => {
            put_failure(errors, &path[..length], error).unwrap_or(());
            None
        }
    }
}

// A line `stop=` with a code alone.
fn print_stop<W: Write>(code: u64, to: &mut W) -> io::Result<()> {
    let mut page = [0u8; LONGEST];
    let n = put_stop(&mut page, code);
    to.write_all(&page[..n])
}
