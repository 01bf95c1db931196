// Stored cases of the player: plays each text that its arguments name, under a line with the text's name. It reads few bytes at a time, so
// that each text is cut often, inside lines and at their ends.
// The file `stdout` was not written by this program: the short answers are read off document 01 and request 2.6, the four long ones (codes_full_list,
// equal_sets, run_billiard_5, run_old_fail) come from outside/, the reading of both in Rust. run_old_fail: an old fail reaches a new ask, request 2.3.
#![tactic(auto)]

use host_bytes::{PATH, open_named, put_failure, word, word_count};
use std::io;
use std::io::Write;
use std::rt::{Env, Files};

// How many bytes are read at once.
const PIECE: usize = 61;

fn play_case<W: Write, E: Write>(
    rt: &(impl Env + Files),
    i: usize,
    to: &mut W,
    errors: &mut E,
) -> io::Result<()> {
    let mut path = [0u8; PATH];
    let length = word(rt, i, &mut path);
    to.write_all(&path[..length])?;
    to.write_all(b"\n")?;
    match open_named(rt, &path[..length]) {
        Ok(mut text) => player_console::play_from(&mut text, PIECE, to),
        Err(error) => put_failure(errors, &path[..length], error),
    }
}

fn main(rt: HostRuntime) -> io::Result<()> {
    let count = word_count(&rt);
    for i in 1..count {
        play_case(&rt, i, &mut rt.stdout(), &mut rt.stderr())?;
    }
    Ok(())
}
