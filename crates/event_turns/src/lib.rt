// An ask or a leave at its site: refused with 5 or 6, or what its rule does, judged and stored.
#![tactic(auto)]

ghost use Rattle.std.specs.Prelude.{◌≡◌, true};
ghost use Rattle.model.specs.State.{in_range};
ghost use Rattle.event_desks.specs.Parts.{desk_at};
ghost use Rattle.event_storing.specs.Leaves.{Leaves, messages_in};
ghost use Rattle.event_storing.specs.Outbox.{Sends};
ghost use Rattle.event_storing.specs.Needs.{SiteReady};
ghost use Rattle.event_turns.specs.Turns.{ask_attempt, ask_outcome, leave_attempt, leave_outcome};

use event_desks::desk;
use event_storing::{Done, conclude};
use list_rows::{Outbox, Rows};
use rig::{Arbiter, Site, Tables};
use rig_modes::{is_inside, is_resting};

// An inner call: site s asks; 5 where it is not at rest.
pub fn ask(
    size: u64,
    accepted: u64,
    s: u64,
    set: u64,
    site: Site,
    arbiter: Arbiter,
    tables: &mut Tables,
    list: &mut Rows,
    count: usize,
    out: &mut Outbox,
) -> Done
    requires { (in_range size s ≡ true) × SiteReady (desk_at size s set site arbiter tables.old) count list.old }
    ensures { Leaves (ask_outcome accepted (desk_at size s set site arbiter tables.old) (messages_in count list.old)) s count tables list result
        × Sends (ask_attempt (desk_at size s set site arbiter tables.old) (messages_in count list.old)) out }
{
    if !is_resting(site) {
        return Done::refused(5, site, arbiter, count);
    }
    let d = desk(size, s, set, site, arbiter, tables);
    let asked = site_asks::ask(d, out, 0);
    conclude(
        accepted, s, site, arbiter, tables, list, count, count, asked, out,
    )
}

// An inner call: site s leaves; 6 where it is not inside.
pub fn leave(
    size: u64,
    accepted: u64,
    s: u64,
    set: u64,
    site: Site,
    arbiter: Arbiter,
    tables: &mut Tables,
    list: &mut Rows,
    count: usize,
    out: &mut Outbox,
) -> Done
    requires { (in_range size s ≡ true) × SiteReady (desk_at size s set site arbiter tables.old) count list.old }
    ensures { Leaves (leave_outcome accepted (desk_at size s set site arbiter tables.old) (messages_in count list.old)) s count tables list result
        × Sends (leave_attempt (desk_at size s set site arbiter tables.old) (messages_in count list.old)) out }
{
    if !is_inside(site) {
        return Done::refused(6, site, arbiter, count);
    }
    let d = desk(size, s, set, site, arbiter, tables);
    let left = site_leaves::leave(d, out, 0);
    conclude(
        accepted, s, site, arbiter, tables, list, count, count, left, out,
    )
}
