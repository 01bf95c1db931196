// The lines of one set, one site, one arbiter and one message on a page. Every inner call answers the place behind what it puts.
#![tactic(auto)]

ghost use Rattle.std.specs.Prelude.{suc, ◌≤◌, ◌<◌, [], ◌∷◌, length, get_or};
ghost use Rattle.rig.specs.Limits.{site_limit};
ghost use Rattle.model.specs.Sets.{member};
ghost use Rattle.list_rows.specs.Rows.{message_of};
ghost use Rattle.save_lines.specs.Lines.{field};
ghost use Rattle.save_entries.specs.Entries.{entries};
ghost use Rattle.save_text.specs.Text.{set_field, message_field};
ghost use Rattle.save_putting.specs.Puts.{Fits, Puts, field_of, member_lines, site_lines, arbiter_lines};

use list_rows::{Row, message};
use rig::{Rig, Table, Tables};
use save_entries::{askers, entries_value, members_value};
use save_fields::{Value, holder_value, mode_value, number_value};
use save_lines::put_line;
use save_messages::message_value;

// The line of a word and a value.
fn put_value(page: &mut [u8], at: usize, word: &[u8], v: Value) -> usize
    requires { (v.count ≤ length v.numbers) × Fits (field_of word.now v ∷ []) at page.old }
    ensures { Puts (field_of word.now v ∷ []) at page.old page.new result }
{
    put_line(page, at, word, &v.numbers, v.count)
}

// An inner call: the line of a word and one number.
pub fn put_one(page: &mut [u8], at: usize, word: &[u8], n: u64) -> usize
    requires { Fits (field word.now (n ∷ []) ∷ []) at page.old }
    ensures { Puts (field word.now (n ∷ []) ∷ []) at page.old page.new result }
{
    put_value(page, at, word, number_value(n))
}

// The line of a word and the entries of row i of a table at the members of a set.
fn put_row(page: &mut [u8], at: usize, word: &[u8], set: u64, table: &Table, i: usize) -> usize
    requires { (i < site_limit) × Fits (field word.now (entries (member set) (get_or table.now i [])) ∷ []) at page.old }
    ensures { Puts (field word.now (entries (member set) (get_or table.now i [])) ∷ [])
        at page.old page.new result }
{
    put_value(page, at, word, entries_value(set, &table[i]))
}

// An inner call: the line of a set.
pub fn put_set(page: &mut [u8], at: usize, set: u64) -> usize
    requires { Fits (set_field set ∷ []) at page.old }
    ensures { Puts (set_field set ∷ []) at page.old page.new result }
{
    put_value(page, at, b"set=", members_value(set))
}

// The lines of what site i + 1 has for each member of its set.
fn put_rows(page: &mut [u8], at: usize, set: u64, tables: &Tables, i: usize) -> usize
    requires { (i < site_limit) × Fits (member_lines set tables.now i) at page.old }
    ensures { Puts (member_lines set tables.now i) at page.old page.new result }
{
    let held = put_row(page, at, b"held=", set, &tables[Rig::HELD], i);
    let heir = put_row(page, held, b"heir=", set, &tables[Rig::HEIR], i);
    put_row(page, heir, b"inquired=", set, &tables[Rig::INQUIRED], i)
}

// An inner call: the five lines of site i + 1.
pub fn put_site(page: &mut [u8], at: usize, rig: Rig, tables: &Tables, i: usize) -> usize
    requires { (i < site_limit) × Fits (site_lines rig tables.now (suc i)) at page.old }
    ensures { Puts (site_lines rig tables.now (suc i)) at page.old page.new result }
{
    let site = rig.sites[i];
    let clock = put_one(page, at, b"clock=", site.clock);
    let next = put_value(page, clock, b"mode=", mode_value(site.mode));
    put_rows(page, next, rig.sets[i], tables, i)
}

// An inner call: the three lines of arbiter i + 1.
pub fn put_arbiter(page: &mut [u8], at: usize, rig: Rig, tables: &Tables, i: usize) -> usize
    requires { (i < site_limit) × Fits (arbiter_lines rig tables.now (suc i)) at page.old }
    ensures { Puts (arbiter_lines rig tables.now (suc i)) at page.old page.new result }
{
    let arbiter = rig.arbiters[i];
    let set = askers(&rig.sets, i as u64 + 1);
    let grant = put_one(page, at, b"grant=", arbiter.grant);
    let holder = put_value(page, grant, b"holder=", holder_value(arbiter));
    put_row(page, holder, b"queued=", set, &tables[Rig::QUEUED], i)
}

// An inner call: the line of a message in a row.
pub fn put_message(page: &mut [u8], at: usize, row: Row) -> usize
    requires { Fits (message_field (message_of row) ∷ []) at page.old }
    ensures { Puts (message_field (message_of row) ∷ []) at page.old page.new result }
{
    put_value(page, at, b"message=", message_value(message(row)))
}
