// One event at its site: the site's own part goes in, and what it becomes comes out. No other site's part is read or written.
#![tactic(auto)]

ghost use Rattle.model.specs.Event.{actor, attempted, event_at};
ghost use Rattle.event_desks.specs.Parts.{desk_at};
ghost use Rattle.event_storing.specs.Leaves.{Leaves, messages_in};
ghost use Rattle.event_storing.specs.Outbox.{Sends};
ghost use Rattle.event_storing.specs.Needs.{SiteReady};

use event_deliveries::deliver;
use event_sites::sites_named;
use event_storing::Done;
use event_turns::{ask, leave};
use list_rows::{Outbox, Rows};
use rig::{Arbiter, Event, Site, Tables};

// An inner call: one event at its site, of which these are the request set, the site and the arbiter.
pub fn step_at(
    size: u64,
    accepted: u64,
    set: u64,
    site: Site,
    arbiter: Arbiter,
    tables: &mut Tables,
    list: &mut Rows,
    count: usize,
    out: &mut Outbox,
    e: Event,
) -> Done
    requires { SiteReady (desk_at size (actor e) set site arbiter tables.old) count list.old }
    ensures { Leaves (event_at accepted (desk_at size (actor e) set site arbiter tables.old) (messages_in count list.old) e) (actor e) count tables list result
        × Sends (attempted (desk_at size (actor e) set site arbiter tables.old) (messages_in count list.old) e) out }
{
    if !sites_named(size, e) {
        return Done::refused(4, site, arbiter, count);
    }
    match e {
        Event::Ask(s) => ask(
            size, accepted, s, set, site, arbiter, tables, list, count, out,
        ),
        Event::Leave(s) => leave(
            size, accepted, s, set, site, arbiter, tables, list, count, out,
        ),
        Event::Deliver(a, b) => deliver(
            size, accepted, set, site, arbiter, tables, list, count, out, a, b,
        ),
    }
}
