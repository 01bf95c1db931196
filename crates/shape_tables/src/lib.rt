// Whether the tables of numbers are well shaped, as model/specs/Shape defines it. `which` is the index of a table: it says how an entry
// is tested.
#![tactic(auto)]

ghost use Rattle.std.specs.Prelude.{◌≡◌, ◌&&◌, [], eqb, get_or};
ghost use Rattle.rig.specs.Limits.{site_limit, HELD, HEIR, INQUIRED, QUEUED};
ghost use Rattle.basics.specs.Helpers.{all};
ghost use Rattle.model.specs.Tables.{at};
ghost use Rattle.model.specs.Shape.{own_shaped, heir_shaped, queued_shaped, everywhere};
ghost use Rattle.shape_cells.specs.Cells.{cell_shaped};

use rig::{Rig, Table, Tables};
use shape_cells::cell_shaped;

// Whether all entries of a row are 0. Tried: with `all` here and `for` over elements below, an event with its test takes a quarter longer (docs/GATE.md).
fn is_blank(row: &[u64; Rig::SITES]) -> bool
    ensures { result ≡ all (λ b. eqb (at 0 row.now b) 0) site_limit }
{
    let mut any = 0;
    for b in 0..Rig::SITES {
        any = any | row[b];
    }
    any == 0
}

// Row a. Most rows are blank, and every test passes 0.
fn row_shaped(which: usize, sets: &[u64; Rig::SITES], a: u64, row: &[u64; Rig::SITES]) -> bool
    ensures { result ≡ all (λ b. cell_shaped which sets.now a b (at 0 row.now b)) site_limit }
{
    if is_blank(row) {
        return true;
    }
    for i in 0..Rig::SITES {
        if !cell_shaped(which, sets, a, i as u64 + 1, row[i]) {
            return false;
        }
    }
    true
}

// Every row of the table.
fn table_shaped(which: usize, sets: &[u64; Rig::SITES], table: &Table) -> bool
    ensures { result ≡ everywhere (cell_shaped which sets.now) table.now }
{
    for i in 0..Rig::SITES {
        if !row_shaped(which, sets, i as u64 + 1, &table[i]) {
            return false;
        }
    }
    true
}

// All four tables, with the request sets of their rig.
pub fn tables_shaped(sets: &[u64; Rig::SITES], tables: &Tables) -> bool
    ensures { let s = sets.now in let t = tables.now in result ≡ everywhere (own_shaped s) (get_or t HELD [])
        && (everywhere (heir_shaped s) (get_or t HEIR []) && (everywhere (own_shaped s) (get_or t INQUIRED []) && everywhere (queued_shaped s) (get_or t QUEUED []))) }
{
    if !table_shaped(Rig::HELD, sets, &tables[Rig::HELD]) {
        return false;
    }
    if !table_shaped(Rig::HEIR, sets, &tables[Rig::HEIR]) {
        return false;
    }
    if !table_shaped(Rig::INQUIRED, sets, &tables[Rig::INQUIRED]) {
        return false;
    }
    table_shaped(Rig::QUEUED, sets, &tables[Rig::QUEUED])
}
