// Prints a family as lines of the player's text: `plan grid 3`, `plan billiard 7`, `plan plane 5`, `plan levels 2 3 5`, `plan votes 3 1 1 1`. The
// script `./plan` calls it. Its stored test is one such call; `plan_cases` has one of each family and of each refusal.
#![tactic(auto)]

use host_bytes::word_count;
use std::io;

fn main(rt: HostRuntime) -> io::Result<()> {
    plan_console::print_at(&rt, 1, word_count(&rt), &mut rt.stdout(), &mut rt.stderr())
}
