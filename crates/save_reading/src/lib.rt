// The state that the lines of a text give. It is not judged here: it may be misshapen, and the text need not be its text.
#![tactic(auto)]

ghost use Rattle.std.specs.Prelude.{◌≤◌, ◌≡◌, length, drop};
ghost use Rattle.rig.specs.Limits.{site_limit, blank_tables};
ghost use Rattle.list_rows.specs.Rows.{zero_rows};
ghost use Rattle.save_lines.specs.Lines.{lines_in};
ghost use Rattle.save_text.specs.Reading.{site_line, arbiter_line};
ghost use Rattle.save_reading.specs.Places.{line_start};
ghost use Rattle.save_reading.specs.Lines.{taken_sets, taken_sites, taken_arbiters, own_tables, all_tables, ReadsMessages, GivesLines};

use list_rows::Rows;
use rig::{Arbiter, Mode, Rig, Site, Tables};
use save_entries::askers;
use save_fields::Numbers;
use save_taking::{
    Taken, set_of, size_of, take_arbiter, take_line, take_message, take_numbers, take_queue,
    take_rows, take_site,
};

// What the lines of a text give beside the tables and the list: the rig, and how many messages there are.
#[derive(Clone, Copy)]
pub struct Given {
    pub rig: Rig,
    pub count: usize,
}

// The sets of the lines `set=`, of which there are n.
fn read_sets(text: &[u8], at: usize, n: usize) -> Taken<Numbers>
    requires { (at ≡ line_start text.now 1) × (n ≤ site_limit) }
    ensures { result ≡ taken_sets text.now n }
{
    let mut sets = [0; Rig::SITES];
    let mut next = at;
    for set in &mut sets[..n] {
        let taken = take_line(text, next);
        *set = set_of(taken.value);
        next = taken.next;
    }
    Taken { value: sets, next }
}

// The sites, of which there are n, and their rows of three tables.
fn read_sites(
    text: &[u8],
    at: usize,
    n: usize,
    sets: &Numbers,
    tables: &mut Tables,
) -> Taken<[Site; Rig::SITES]>
    requires { (at ≡ line_start text.now (site_line n 1)) × (n ≤ site_limit) × (tables.old ≡ blank_tables) }
    ensures value { result ≡ taken_sites text.now n sets.now }
    ensures tables_after { tables.new ≡ own_tables text.now n sets.now n }
{
    let mut sites = [Site {
        mode: Mode::Rest,
        clock: 0,
    }; Rig::SITES];
    let mut next = at;
    for (i, site) in sites[..n].iter_mut().enumerate() {
        let taken = take_site(text, next);
        *site = taken.value;
        next = take_rows(text, taken.next, sets[i], i, tables);
    }
    Taken { value: sites, next }
}

// The arbiters, of which there are n, and their rows of the fourth table.
fn read_arbiters(
    text: &[u8],
    at: usize,
    n: usize,
    sets: &Numbers,
    tables: &mut Tables,
) -> Taken<[Arbiter; Rig::SITES]>
    requires { (at ≡ line_start text.now (arbiter_line n 1)) × (n ≤ site_limit) × (tables.old ≡ own_tables text.now n sets.now n) }
    ensures value { result ≡ taken_arbiters text.now n sets.now }
    ensures tables_after { tables.new ≡ all_tables text.now n sets.now n }
{
    let mut arbiters = [Arbiter {
        grant: 0,
        holder: 0,
        seq: 0,
    }; Rig::SITES];
    let mut next = at;
    for (i, arbiter) in arbiters[..n].iter_mut().enumerate() {
        let taken = take_arbiter(text, next);
        *arbiter = taken.value;
        let set = askers(sets, i as u64 + 1);
        next = take_queue(text, taken.next, set, i, tables);
    }
    Taken {
        value: arbiters,
        next,
    }
}

// The messages of the lines from place `at` on, and how many they are; none where they are more than the list has room for.
fn read_messages(text: &[u8], at: usize, list: &mut Rows) -> Option<usize>
    requires { (at ≤ length text.now) × (list.old ≡ zero_rows) }
    ensures { ReadsMessages (lines_in (drop at text.now)) list.new result }
{
    let mut next = at;
    let mut count = 0;
    while next < text.len() {
        if count == Rig::MESSAGES {
            return None;
        }
        next = take_message(text, next, list, count);
        count = count + 1;
    }
    Some(count)
}

// An inner call, on blank tables and rows of zeros: the state that the lines of a text give; none where there are more sites or messages than any state
// has. The tables and the list are written where the caller has them.
pub fn read_lines(text: &[u8], tables: &mut Tables, list: &mut Rows) -> Option<Given>
    requires { (tables.old ≡ blank_tables) × (list.old ≡ zero_rows) }
    ensures { GivesLines text.now tables.new list.new result }
{
    let first = take_line(text, 0);
    let size = size_of(first.value);
    if size > Rig::SITES as u64 {
        return None;
    }
    let n = size as usize;
    let Taken { value: sets, next } = read_sets(text, first.next, n);
    let Taken {
        value: events,
        next,
    } = take_numbers(text, next);
    let Taken { value: sites, next } = read_sites(text, next, n, &sets, tables);
    let Taken {
        value: arbiters,
        next,
    } = read_arbiters(text, next, n, &sets, tables);
    let count = read_messages(text, next, list)?;
    let rig = Rig {
        size,
        sets,
        sites,
        arbiters,
        accepted: events[0],
    };
    Some(Given { rig, count })
}
