// What single lines of a text give: a site's, an arbiter's, a row's, a message's. It is not judged here.
#![tactic(auto)]

ghost use Rattle.std.specs.Prelude.{◌≤◌, ◌<◌, ◌≡◌, length, set};
ghost use Rattle.rig.specs.Limits.{site_limit, table_count, QUEUED};
ghost use Rattle.list_rows.specs.Rows.{row_of};
ghost use Rattle.player_text.specs.Player.{size_in, set_in};
ghost use Rattle.save_messages.specs.Messages.{message_from};
ghost use Rattle.save_text.specs.Reading.{or_zero};
ghost use Rattle.save_taking.specs.Places.{numbers_here, place_behind};
ghost use Rattle.save_taking.specs.Parts.{taken_here, meant_here, taken_row, site_here, arbiter_here, row_here, with_row, behind_three, with_own};

use list_rows::{Row, row};
use player_grammar::{Line, meaning};
use player_text::{set_in, size_in};
use rig::{Arbiter, Rig, Site, Table};
use save_entries::row_from;
use save_fields::{Numbers, arbiter_from, mode_from};
use save_messages::message_from;
use save_numbers::{end_of_line, next_line, numbers_in};

// What is read from some lines, and the place where the next line starts.
#[derive(Clone, Copy)]
pub struct Taken<T> {
    pub value: T,
    pub next: usize,
}

// An inner call: the numbers of the line that starts at place `at`.
pub fn take_numbers(text: &[u8], at: usize) -> Taken<Numbers>
    requires { at ≤ length text.now }
    ensures { result ≡ taken_here text.now at }
{
    let end = end_of_line(text, at);
    let next = next_line(end, text.len());
    let value = numbers_in(&text[at..end]);
    Taken { value, next }
}

// An inner call: what the line that starts at place `at` says to the player.
pub fn take_line(text: &[u8], at: usize) -> Taken<Option<Line>>
    requires { at ≤ length text.now }
    ensures { result ≡ meant_here text.now at }
{
    let end = end_of_line(text, at);
    let next = next_line(end, text.len());
    let value = meaning(&text[at..end]);
    Taken { value, next }
}

// The number of a line `sites=`; 0 for another line.
pub fn size_of(line: Option<Line>) -> u64
    ensures { result ≡ or_zero (size_in line) }
{
    let Some(n) = size_in(line) else {
        return 0;
    };
    n
}

// The set of a line `set=`; 0 for another line.
pub fn set_of(line: Option<Line>) -> u64
    ensures { result ≡ or_zero (set_in line) }
{
    let Some(set) = set_in(line) else {
        return 0;
    };
    set
}

// An inner call: a row of a table, its entries at the members of a set, ascending, as the line says them.
pub fn take_row(text: &[u8], at: usize, set: u64) -> Taken<Numbers>
    requires { at ≤ length text.now }
    ensures { result ≡ taken_row set text.now at }
{
    let line = take_numbers(text, at);
    Taken {
        value: row_from(set, &line.value),
        next: line.next,
    }
}

// An inner call: a site, from its lines `clock=` and `mode=`.
pub fn take_site(text: &[u8], at: usize) -> Taken<Site>
    requires { at ≤ length text.now }
    ensures { result ≡ site_here text.now at }
{
    let first = take_numbers(text, at);
    let second = take_numbers(text, first.next);
    let value = Site {
        mode: mode_from(&second.value),
        clock: first.value[0],
    };
    Taken {
        value,
        next: second.next,
    }
}

// An inner call: an arbiter, from its lines `grant=` and `holder=`.
pub fn take_arbiter(text: &[u8], at: usize) -> Taken<Arbiter>
    requires { at ≤ length text.now }
    ensures { result ≡ arbiter_here text.now at }
{
    let first = take_numbers(text, at);
    let second = take_numbers(text, first.next);
    Taken {
        value: arbiter_from(first.value[0], &second.value),
        next: second.next,
    }
}

// An inner call: the rows of a site's lines `held=`, `heir=` and `inquired=`, each put at its place i; answers the place behind the lines.
pub fn take_rows(text: &[u8], at: usize, set: u64, i: usize, tables: &mut [Table]) -> usize
    requires { (at ≤ length text.now) × (i < site_limit) × (length tables.old ≡ table_count) }
    ensures value { result ≡ behind_three text.now at }
    ensures tables_after { tables.new ≡ with_own tables.old i set text.now at }
{
    let Taken { value: held, next } = take_row(text, at, set);
    tables[Rig::HELD][i] = held;
    let Taken { value: heir, next } = take_row(text, next, set);
    tables[Rig::HEIR][i] = heir;
    let Taken {
        value: inquired,
        next,
    } = take_row(text, next, set);
    tables[Rig::INQUIRED][i] = inquired;
    next
}

// An inner call: the row of an arbiter's line `queued=`, put at place i; answers the place behind the line.
pub fn take_queue(text: &[u8], at: usize, set: u64, i: usize, tables: &mut [Table]) -> usize
    requires { (at ≤ length text.now) × (i < site_limit) × (length tables.old ≡ table_count) }
    ensures value { result ≡ place_behind text.now at }
    ensures tables_after { tables.new ≡ with_row tables.old QUEUED i (row_here set text.now at) }
{
    let Taken {
        value: queued,
        next,
    } = take_row(text, at, set);
    tables[Rig::QUEUED][i] = queued;
    next
}

// An inner call: the message of a line, put at place i; answers the place behind the line.
pub fn take_message(text: &[u8], at: usize, list: &mut [Row], i: usize) -> usize
    requires { (at ≤ length text.now) × (i < length list.old) }
    ensures value { result ≡ place_behind text.now at }
    ensures list_after { list.new ≡ set list.old i (row_of (message_from (numbers_here text.now at))) }
{
    let taken = take_numbers(text, at);
    list[i] = row(message_from(&taken.value));
    taken.next
}
