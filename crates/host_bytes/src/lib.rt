// What a program takes from the system, as bytes: the words that it was started with, and the file that a word names. Which bytes these are, no
// contract can say.
#![tactic(auto)]

ghost use Rattle.std.specs.Prelude.{IfOk};
ghost use Rattle.host_bytes.specs.Counts.{IsPrefixLen};

use std::env::FillError;
use std::fmt::InlineText;
use std::fs::File;
use std::io::{ErrorKind, Read, Write};
use std::rt::{Env, Files};
use std::{io, str};

// Room for the name of a file: Linux takes none that is longer (PATH_MAX).
pub const PATH: usize = 4_096;

// Puts word i at the start of the buffer and answers its length: 0 where there is no such word, or no room for it.
pub fn word(rt: &impl Env, i: usize, buf: &mut [u8]) -> usize
    ensures { IsPrefixLen result buf.new }
{
    rt.arg(i, buf).unwrap_or(0)
}

// How many words the program was started with, its own name among them.
pub fn word_count(rt: &impl Env) -> usize {
    let mut buf = [0u8; 1];
    (0..usize::MAX)
        .find(|i| matches!(rt.arg(*i, &mut buf), Err(FillError::NotPresent)))
        .unwrap_or(usize::MAX)
}

// Writes a space and word i.
pub fn print_word(rt: &impl Env, i: usize, to: &mut impl Write) -> io::Result<()> {
    let mut bytes = [0u8; PATH];
    let length = word(rt, i, &mut bytes);
    to.write_all(b" ")?;
    to.write_all(&bytes[..length])
}

// Opens the file of that name to read it. std opens none whose name is not UTF-8.
pub fn open_named<R: Files>(rt: &R, name: &[u8]) -> io::Result<R::File> {
    match str::from_utf8(name) {
        Ok(text) => File::open(rt, text),
        Err(_) => Err(io::Error::new(ErrorKind::InvalidFilename, "the name is not UTF-8")),
    }
}

// Reads until the buffer is full or the input ends; answers how many bytes now stand at its start. std's `read_exact` fails where the input ends first, and
// `read_to_end` needs memory.
pub fn read_full(from: &mut impl Read, buf: &mut [u8]) -> io::Result<usize>
    ensures { IfOk result (λ n. IsPrefixLen n buf.new) }
{
    let mut done = 0;
    while done < buf.len() {
        let n = from.read(&mut buf[done..])?;
        if n == 0 {
            break;
        }
        done += n;
    }
    Ok(done)
}

// Writes a line: the name of a file, and why it could not be opened.
pub fn put_failure(to: &mut impl Write, name: &[u8], error: io::Error) -> io::Result<()> {
    let text = InlineText::<120>::of(error);
    to.write_all(name)?;
    to.write_all(b": ")?;
    to.write_all(reason(text.as_str()).as_bytes())?;
    to.write_all(b"\n")
}

// The words of an error before the number that std puts behind those of the system.
fn reason(text: &str) -> &str {
    match text.split_once(" (os error ") {
        Some((words, _)) => words,
        None => text,
    }
}
