// The player: plays the text of events on standard input, as much of it at a time as its buffer holds. Its stored test is the printed example
// of document 01.
#![tactic(auto)]

use std::io;

fn main(rt: HostRuntime) -> io::Result<()> {
    player_console::play_from(&mut rt.stdin(), 0, &mut rt.stdout())
}
