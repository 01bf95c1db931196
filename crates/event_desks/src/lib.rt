// One site's desk, put together from its parts, and its rows stored. Site s has row s - 1 of each table.
#![tactic(auto)]

ghost use Rattle.std.specs.Prelude.{◌≡◌, length};
ghost use Rattle.rig.specs.Limits.{SiteNumber, table_count};
ghost use Rattle.event_desks.specs.Parts.{desk_at, RowsStored};

use rig::{Arbiter, Desk, Rig, Site, Table, Tables};

// An inner call: all that site s has.
pub fn desk(size: u64, s: u64, set: u64, site: Site, arbiter: Arbiter, tables: &Tables) -> Desk
    requires { SiteNumber s }
    ensures { result ≡ desk_at size s set site arbiter tables.now }
{
    let i = (s - 1) as usize;
    Desk {
        size,
        number: s,
        members: set,
        site,
        arbiter,
        held: tables[Rig::HELD][i],
        heir: tables[Rig::HEIR][i],
        inquired: tables[Rig::INQUIRED][i],
        queued: tables[Rig::QUEUED][i],
    }
}

fn store_in(tables: &mut [Table], s: u64, d: Desk)
    requires { SiteNumber s × (length tables.old ≡ table_count) }
    ensures { RowsStored s d tables.old tables.new }
{
    let i = (s - 1) as usize;
    let Desk {
        held,
        heir,
        inquired,
        queued,
        ..
    } = d;
    tables[Rig::HELD][i] = held;
    tables[Rig::HEIR][i] = heir;
    tables[Rig::INQUIRED][i] = inquired;
    tables[Rig::QUEUED][i] = queued;
}

// An inner call: the rows of site s become those of the desk d.
pub fn store_rows(tables: &mut Tables, s: u64, d: Desk)
    requires { SiteNumber s }
    ensures { RowsStored s d tables.old tables.new }
{
    store_in(tables, s, d)
}
