// A delivery at its receiver: refused with 7, or what the rule of the message's kind does, judged and stored.
#![tactic(auto)]

ghost use Rattle.std.specs.Prelude.{◌≡◌, true};
ghost use Rattle.model.specs.State.{in_range};
ghost use Rattle.event_desks.specs.Parts.{desk_at};
ghost use Rattle.event_storing.specs.Leaves.{Leaves};
ghost use Rattle.event_storing.specs.Outbox.{Sends};
ghost use Rattle.event_storing.specs.Needs.{SiteReady};
ghost use Rattle.event_deliveries.specs.AtPlace.{attempt_from, delivered_from};

use event_desks::desk;
use event_storing::{Done, conclude};
use list_rows::{Outbox, Rows, message};
use list_search::{Found, first};
use rig::{Arbiter, Site, Tables};

// An inner call: the first message from a to b is delivered, by the case of `Found`.
pub fn deliver(
    size: u64,
    accepted: u64,
    set: u64,
    site: Site,
    arbiter: Arbiter,
    tables: &mut Tables,
    list: &mut Rows,
    count: usize,
    out: &mut Outbox,
    a: u64,
    b: u64,
) -> Done
    requires { (in_range size b ≡ true) × SiteReady (desk_at size b set site arbiter tables.old) count list.old }
    ensures { Leaves (delivered_from a b accepted (desk_at size b set site arbiter tables.old) count list.old) b count tables list result
        × Sends (attempt_from a b (desk_at size b set site arbiter tables.old) count list.old) out }
{
    let Found::At(place) = first(list, count, a, b) else {
        return Done::refused(7, site, arbiter, count);
    };
    let d = desk(size, b, set, site, arbiter, tables);
    let m = message(list[place]);
    let done = event_delivery::deliver(d, m, out, 0);
    conclude(
        accepted, b, site, arbiter, tables, list, count, place, done, out,
    )
}
