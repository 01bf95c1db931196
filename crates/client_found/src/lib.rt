// A caller of the search and of the delivery: what it promises, by the case of `Found`, follows from their contracts alone.
#![tactic(auto)]

ghost use Rattle.std.specs.Prelude.{◌≡◌, true, take};
ghost use Rattle.model.specs.State.{in_range};
ghost use Rattle.list_search.specs.Places.{found_in};
ghost use Rattle.event_desks.specs.Parts.{desk_at};
ghost use Rattle.event_storing.specs.Needs.{SiteReady};
ghost use Rattle.client_found.specs.Delivered.{Delivers};

use event_deliveries::deliver;
use event_storing::Done;
use list_rows::{Outbox, Rows};
use list_search::{Found, first};
use rig::{Arbiter, Site, Tables};

// Where the message stood, and what its delivery answered.
#[derive(Clone, Copy)]
pub struct Delivery {
    pub found: Found,
    pub done: Done,
}

// An inner call: the first message from a to b is looked for, and delivered.
pub fn deliver_found(
    size: u64,
    accepted: u64,
    set: u64,
    site: Site,
    arbiter: Arbiter,
    tables: &mut Tables,
    list: &mut Rows,
    count: usize,
    out: &mut Outbox,
    a: u64,
    b: u64,
) -> Delivery
    requires { (in_range size b ≡ true) × SiteReady (desk_at size b set site arbiter tables.old) count list.old }
    ensures { (result.found ≡ found_in a b (take count list.old))
        × Delivers result.found accepted b (desk_at size b set site arbiter tables.old) count tables list out result.done }
{
    let found = first(list, count, a, b);
    let done = deliver(
        size, accepted, set, site, arbiter, tables, list, count, out, a, b,
    );
    Delivery { found, done }
}
