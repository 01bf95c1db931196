// Stored cases of `plan`: one command of each family, of each refusal and of each wrong use, by the library call that the program makes. Their words
// are this program's arguments, one command behind the other. What a call prints stands under a line with its command and where it goes.
// The file `stdout` was not written by this program: `outside/vectors` writes it from the words of requests 2.1 and 2.5.
#![tactic(auto)]

use host_bytes::print_word;
use plan_console::{plan_at, print_at};
use plan_lines::PLAN_LENGTH;
use plan_text::Stream;
use std::io;

// Each command by the argument that is its family's name, and the argument behind its last word. The arguments behind it are those of the next
// command, so that a word taken for another shows.
const FAMILIES: [(u8, usize); 12] = [
    (1, 3),
    (3, 5),
    (5, 7),
    (7, 11),
    (11, 15),
    (56, 62),
    (62, 67),
    (67, 72),
    (72, 78),
    (78, 83),
    (83, 85),
    (85, 117),
];

const REFUSALS: [(u8, usize); 15] = [
    (15, 17),
    (17, 19),
    (19, 21),
    (21, 23),
    (23, 27),
    (27, 31),
    (31, 35),
    (35, 37),
    (117, 119),
    (119, 122),
    (122, 126),
    (126, 127),
    (127, 160),
    (160, 193),
    (193, 195),
];

const WRONG_USES: [(u8, usize); 12] = [
    (37, 38),
    (38, 41),
    (41, 43),
    (43, 45),
    (45, 47),
    (47, 50),
    (50, 54),
    (54, 56),
    (195, 198),
    (198, 201),
    (201, 234),
    (234, 236),
];

fn main(rt: HostRuntime) -> io::Result<()> {
    for (at, end) in FAMILIES.iter().chain(&REFUSALS).chain(&WRONG_USES) {
        print_case(&rt, *at, *end)?;
    }
    Ok(())
}

// A line as `stdout> plan grid 3`, and what the call prints. What goes to standard error stands here by the page, so that it would show twice if it
// went to standard output.
fn print_case(rt: &HostRuntime, at: u8, end: usize) -> io::Result<()> {
    let mut page = [0u8; PLAN_LENGTH];
    let output = plan_at(rt, at, end, &mut page);
    match output.to {
        Stream::Out => print_command(rt, b"stdout> plan", at, end)?,
        Stream::Err => {
            print_command(rt, b"stderr> plan", at, end)?;
            rt.write_all(&page[..output.length])?;
        }
    }
    print_at(rt, at, end, &mut rt.stdout(), &mut rt.stderr())
}

// A line with a command and its words.
fn print_command(rt: &HostRuntime, command: &[u8], at: u8, end: usize) -> io::Result<()> {
    rt.write_all(command)?;
    for i in at as usize..end {
        print_word(rt, i, &mut rt.stdout())?;
    }
    rt.write_all(b"\n")
}
