// Keeps a state: plays a text and saves, or goes on from a saved text. Its stored test is the example of docs/TEXT.md.
#![tactic(auto)]

use host_bytes::word_count;
use std::io;

fn main(rt: HostRuntime) -> io::Result<()> {
    let count = word_count(&rt);
    state_console::run(
        &rt,
        1,
        count,
        &mut rt.stdin(),
        0,
        &mut rt.stdout(),
        &mut rt.stderr(),
    )
}
