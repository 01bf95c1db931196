// What a rule of one event answers.
#![tactic(auto)]

use rig::Desk;

// The next desk, and how many rows of the list of messages to send are now used.
#[derive(Clone, Copy)]
pub struct Acted {
    pub desk: Desk,
    pub count: usize,
}
