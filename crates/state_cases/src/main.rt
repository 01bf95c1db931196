// Stored cases of `state`: each command by the library call that the program makes, with its input from a file. The words of a command and the name of its
// input are this program's arguments, one command behind the other, so that a word taken for another shows. What a call prints stands under a line with its
// command. It reads few bytes at a time, so that each text is cut often, and some long inputs as the program does, so that one piece prints more than
// there is room for. What goes to standard error would show if it went to standard output.
// The file `stdout` was not written by this program: `outside/state_cases` writes it, by the reading of the words in Rust.
#![tactic(auto)]

use host_bytes::{PATH, open_named, print_word, word};
use std::io;

// How many bytes are read at once: few, or as many as there is room for, as the program does.
const PIECE: usize = 61;

const ROOM: usize = 0;

// Each command by the argument that is its first word, and the one behind its last word, which names its input.
// Whole texts, saved.
const SAVES: [(u8, u8); 7] = [(1, 2), (3, 4), (5, 6), (7, 8), (9, 10), (11, 12), (13, 14)];

// Runs that go on, saved.
const SAVES_FROM: [(u8, u8); 6] = [(15, 17), (18, 20), (21, 23), (24, 26), (27, 29), (30, 32)];

// Their lines.
const PLAYS_FROM: [(u8, u8); 6] = [(33, 35), (36, 38), (39, 41), (42, 44), (45, 47), (48, 50)];

// Files that are no saved text.
const NO_SAVED_TEXTS: [(u8, u8); 7] = [
    (51, 53),
    (54, 56),
    (57, 59),
    (60, 62),
    (63, 65),
    (66, 68),
    (69, 71),
];

// A state that becomes misshapen.
const MISSHAPEN: [(u8, u8); 3] = [(72, 74), (75, 77), (78, 80)];

// A file that is not there, and wrong words.
const WRONG_USES: [(u8, u8); 6] = [(81, 83), (84, 86), (87, 88), (89, 90), (91, 93), (94, 97)];

// The longest saved text, and a byte more; 1,500 events.
const LONG: [(u8, u8); 3] = [(98, 100), (101, 103), (104, 106)];

// Events, as many at a time as there is room for; a line that stops the run where what is printed leaves no room for another page.
const LONG_PIECES: [(u8, u8); 4] = [(107, 109), (110, 112), (113, 115), (116, 118)];

// First words that only begin as one of a command.
const LONGER_WORDS: [(u8, u8); 2] = [(119, 121), (122, 124)];

// A text that the version before request 2.3 has saved, with a fail numbered 0 to a waiting site: it is written back as it is, and the fail counts. The same
// with the number of an ask that is over: it does nothing. A number 0 that is written: no saved text.
const OLD_FAILS: [(u8, u8); 7] = [
    (125, 127),
    (128, 130),
    (131, 133),
    (134, 136),
    (137, 139),
    (140, 142),
    (143, 145),
];

// Request 2.6: a text with a set that strictly contains an earlier one, and a saved text with such sets.
const NESTED: [(u8, u8); 3] = [(146, 147), (148, 150), (151, 153)];

fn main(rt: HostRuntime) -> io::Result<()> {
    print_cases(&rt, &SAVES, PIECE)?;
    print_cases(&rt, &SAVES_FROM, PIECE)?;
    print_cases(&rt, &PLAYS_FROM, PIECE)?;
    print_cases(&rt, &NO_SAVED_TEXTS, PIECE)?;
    print_cases(&rt, &MISSHAPEN, PIECE)?;
    print_cases(&rt, &WRONG_USES, PIECE)?;
    print_cases(&rt, &LONG, PIECE)?;
    print_cases(&rt, &LONG_PIECES, ROOM)?;
    print_cases(&rt, &LONGER_WORDS, PIECE)?;
    print_cases(&rt, &OLD_FAILS, PIECE)?;
    print_cases(&rt, &NESTED, PIECE)
}

fn print_cases(rt: &HostRuntime, cases: &[(u8, u8)], room: usize) -> io::Result<()> {
    for (at, input) in cases {
        print_case(rt, *at, *input, room)?;
    }
    Ok(())
}

// A line as `> state save SAVED < EVENTS`, and what the call prints.
fn print_case(rt: &HostRuntime, at: u8, input: u8, room: usize) -> io::Result<()> {
    rt.write_all(b"> state")?;
    for i in at..input {
        print_word(rt, i as usize, &mut rt.stdout())?;
    }
    rt.write_all(b" <")?;
    print_word(rt, input as usize, &mut rt.stdout())?;
    rt.write_all(b"\n")?;
    let mut path = [0u8; PATH];
    let length = word(rt, input as usize, &mut path);
    let mut source = open_named(rt, &path[..length])?;
    let count = input.saturating_sub(at) as usize + 1;
    state_console::run(
        rt,
        at,
        count,
        &mut source,
        room,
        &mut rt.stdout(),
        &mut rt.stderr(),
    )
}
