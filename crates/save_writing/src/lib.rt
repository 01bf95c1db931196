// The text of a state on a page: its lines one behind the other. Every inner call answers the place behind what it puts.
#![tactic(auto)]

ghost use Rattle.std.specs.Prelude.{◌≤◌, true, ◌≡◌, length};
ghost use Rattle.rig.specs.Limits.{site_limit};
ghost use Rattle.model.specs.Shape.{well_shaped};
ghost use Rattle.list_rows.specs.State.{stored};
ghost use Rattle.player_printing.specs.Printing.{Printed};
ghost use Rattle.save_text.specs.Text.{each_up_to, text_of};
ghost use Rattle.save_putting.specs.Puts.{Fits, Puts, site_lines, arbiter_lines};
ghost use Rattle.save_writing.specs.Lines.{set_lines, message_lines, state_lines};

use list_rows::{Row, Rows};
use rig::{Rig, Tables};
use save_putting::{put_arbiter, put_message, put_one, put_set, put_site};
use save_text::TextPage;

// The lines of the first n sets.
fn put_sets(page: &mut [u8], at: usize, sets: &[u64], n: usize) -> usize
    requires { (n ≤ length sets.now) × Fits (each_up_to (set_lines sets.now) n) at page.old }
    ensures { Puts (each_up_to (set_lines sets.now) n) at page.old page.new result }
{
    let mut next = at;
    for set in &sets[..n] {
        next = put_set(page, next, *set);
    }
    next
}

// The lines of the sites 1 to n. One function for this loop and the next is no plainer: its contract would state what a call that it is given does to a page.
fn put_sites(page: &mut [u8], at: usize, rig: Rig, tables: &Tables, n: usize) -> usize
    requires { (n ≤ site_limit) × Fits (each_up_to (site_lines rig tables.now) n) at page.old }
    ensures { Puts (each_up_to (site_lines rig tables.now) n) at page.old page.new result }
{
    let mut next = at;
    for i in 0..n {
        next = put_site(page, next, rig, tables, i);
    }
    next
}

// The lines of the arbiters 1 to n.
fn put_arbiters(page: &mut [u8], at: usize, rig: Rig, tables: &Tables, n: usize) -> usize
    requires { (n ≤ site_limit) × Fits (each_up_to (arbiter_lines rig tables.now) n) at page.old }
    ensures { Puts (each_up_to (arbiter_lines rig tables.now) n) at page.old page.new result }
{
    let mut next = at;
    for i in 0..n {
        next = put_arbiter(page, next, rig, tables, i);
    }
    next
}

// The lines of the first `count` messages.
fn put_messages(page: &mut [u8], at: usize, list: &[Row], count: usize) -> usize
    requires { (count ≤ length list.now) × Fits (each_up_to (message_lines list.now) count) at page.old }
    ensures { Puts (each_up_to (message_lines list.now) count) at page.old page.new result }
{
    let mut next = at;
    for row in &list[..count] {
        next = put_message(page, next, *row);
    }
    next
}

// The lines of a state, from the start of a page.
fn put_lines(page: &mut [u8], rig: Rig, tables: &Tables, list: &[Row], count: usize) -> usize
    requires { (rig.size ≤ site_limit) × (count ≤ length list.now) × Fits (state_lines (stored rig tables.now list.now count)) 0 page.old }
    ensures { Puts (state_lines (stored rig tables.now list.now count)) 0 page.old page.new result }
{
    let n = rig.size as usize;
    let sites = put_one(page, 0, b"sites=", rig.size);
    let sets = put_sets(page, sites, &rig.sets, n);
    let accepted = put_one(page, sets, b"accepted=", rig.accepted);
    let placed = put_sites(page, accepted, rig, tables, n);
    let granted = put_arbiters(page, placed, rig, tables, n);
    put_messages(page, granted, list, count)
}

// An inner call: the text of a well-shaped state at the start of a page that holds the longest; answers its length.
pub fn put_state(page: &mut TextPage, rig: Rig, tables: &Tables, list: &Rows, count: usize) -> usize
    requires { well_shaped (stored rig tables.now list.now count) ≡ true }
    ensures { Printed (text_of (stored rig tables.now list.now count)) page.old page.new result }
{
    put_lines(page, rig, tables, list, count)
}
