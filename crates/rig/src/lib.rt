// The plain data of a rig: sites, arbiters, messages and events, with every limit and kind code of document 01.
#![tactic(auto)]

ghost use Rattle.std.specs.Prelude.{◌≡◌};
ghost use Rattle.rig.specs.Messages.{request, reply, release, inquire, fail, yield, transfer};
ghost use Rattle.rig.specs.Limits.{blank_tables};
ghost use Rattle.rig.specs.Answers.{refused};

// What a site is doing. Only a waiting site has a sequence number and a failed mark.
#[derive(Clone, Copy)]
pub enum Mode {
    Rest,
    Waiting { seq: u64, failed: bool },
    Inside,
}

#[derive(Clone, Copy)]
pub struct Site {
    pub mode: Mode,
    pub clock: u64,
}

// An arbiter: its grant number, and its holder (0 none) with the holder's sequence number.
#[derive(Clone, Copy)]
pub struct Arbiter {
    pub grant: u64,
    pub holder: u64,
    pub seq: u64,
}

// A rig, but for its four tables: sites 1 to `size`, each with its request set, and the accepted events.
// Site n stands at index n - 1 of each array.
#[derive(Clone, Copy)]
pub struct Rig {
    pub size: u64,
    pub sets: [u64; Rig::SITES],
    pub sites: [Site; Rig::SITES],
    pub arbiters: [Arbiter; Rig::SITES],
    pub accepted: u64,
}

// All that one site has: the number of sites N, its own number and request set, itself as a site and as an arbiter, its entries
// for each arbiter (the grant number held, the heir, the remembered inquire's number; 0 none), and the sequence number queued of
// each site (0 none). What a site does depends on this and on the message it gets, and on nothing else.
// In document 01 a "desk" is a whole console; here it is one site's part of the tables.
#[derive(Clone, Copy)]
pub struct Desk {
    pub size: u64,
    pub number: u64,
    pub members: u64,
    pub site: Site,
    pub arbiter: Arbiter,
    pub held: [u64; Rig::SITES],
    pub heir: [u64; Rig::SITES],
    pub inquired: [u64; Rig::SITES],
    pub queued: [u64; Rig::SITES],
}

// A table of numbers.
pub type Table = [[u64; Rig::SITES]; Rig::SITES];

// The tables of a rig, each at its index. HELD, HEIR and INQUIRED have a row for each site and a column for each arbiter;
// QUEUED has a row for each arbiter and a column for each site.
pub type Tables = [Table; Rig::TABLES];

#[derive(Clone, Copy)]
pub struct Message {
    pub kind: u64,
    pub from: u64,
    pub to: u64,
    pub about: u64,
    pub number: u64,
}

// What may happen: a site asks, a site leaves, the first message from one site to another is delivered.
#[derive(Clone, Copy)]
pub enum Event {
    Ask(u64),
    Leave(u64),
    Deliver(u64, u64),
}

// The code of an event, the next rig, and how many messages are now under way. The tables and the list are written where the caller
// has them.
#[derive(Clone, Copy)]
pub struct Answer {
    pub code: u64,
    pub rig: Rig,
    pub count: usize,
}

impl Rig {
    pub const SITES: usize = 31;

    pub const TABLES: usize = 4;

    pub const HELD: usize = 0;

    pub const HEIR: usize = 1;

    pub const INQUIRED: usize = 2;

    pub const QUEUED: usize = 3;

    pub const MESSAGES: usize = 1_024;

    pub const EVENTS: u64 = 1_000_000;

    pub const NUMBERS: u64 = 2_000_000;

    // The messages that one event may send: at most two for each site.
    pub const SENT: usize = 2 * Rig::SITES;

    // Tables in which nothing is held, named as heir, inquired or queued.
    pub fn blank() -> Tables
        ensures { result ≡ blank_tables }
    {
        [[[0; Rig::SITES]; Rig::SITES]; Rig::TABLES]
    }
}

impl Answer {
    // A refusal: the code, and the rig and the count that came.
    pub fn refused(code: u64, rig: Rig, count: usize) -> Answer
        ensures { result ≡ refused code rig count }
    {
        Answer {
            code: code,
            rig: rig,
            count: count,
        }
    }
}

impl Message {
    // A message in plain numbers has one for each of its fields.
    pub const FIELDS: usize = 5;

    pub const REQUEST: u64 = 1;

    pub const REPLY: u64 = 2;

    pub const RELEASE: u64 = 3;

    pub const INQUIRE: u64 = 4;

    pub const FAIL: u64 = 5;

    pub const YIELD: u64 = 6;

    pub const TRANSFER: u64 = 7;

    pub fn request(from: u64, to: u64, seq: u64) -> Message
        ensures { result ≡ request from to seq }
    {
        Message {
            kind: Message::REQUEST,
            from: from,
            to: to,
            about: 0,
            number: seq,
        }
    }

    pub fn reply(from: u64, to: u64, arbiter: u64, grant: u64) -> Message
        ensures { result ≡ reply from to arbiter grant }
    {
        Message {
            kind: Message::REPLY,
            from: from,
            to: to,
            about: arbiter,
            number: grant,
        }
    }

    // The heir is 0 where the permission goes back to the arbiter.
    pub fn release(from: u64, to: u64, heir: u64, grant: u64) -> Message
        ensures { result ≡ release from to heir grant }
    {
        Message {
            kind: Message::RELEASE,
            from: from,
            to: to,
            about: heir,
            number: grant,
        }
    }

    pub fn inquire(from: u64, to: u64, grant: u64) -> Message
        ensures { result ≡ inquire from to grant }
    {
        Message {
            kind: Message::INQUIRE,
            from: from,
            to: to,
            about: 0,
            number: grant,
        }
    }

    // The number is that of the ask which the fail answers.
    pub fn fail(from: u64, to: u64, asked: u64) -> Message
        ensures { result ≡ fail from to asked }
    {
        Message {
            kind: Message::FAIL,
            from: from,
            to: to,
            about: 0,
            number: asked,
        }
    }

    // `yield` is a reserved word of Rust.
    pub fn yielding(from: u64, to: u64, grant: u64) -> Message
        ensures { result ≡ yield from to grant }
    {
        Message {
            kind: Message::YIELD,
            from: from,
            to: to,
            about: 0,
            number: grant,
        }
    }

    pub fn transfer(from: u64, to: u64, heir: u64, grant: u64) -> Message
        ensures { result ≡ transfer from to heir grant }
    {
        Message {
            kind: Message::TRANSFER,
            from: from,
            to: to,
            about: heir,
            number: grant,
        }
    }
}
