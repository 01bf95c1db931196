// What an event does at its site, once its rule has worked on the desk: the limits are judged, and the rows and the list are stored.
#![tactic(auto)]

ghost use Rattle.std.specs.Prelude.{◌≡◌, ℕ, ◌≤◌, ◌<◌, length};
ghost use Rattle.rig.specs.Limits.{message_limit, SiteNumber};
ghost use Rattle.list_rows.specs.Rows.{ZeroPast};
ghost use Rattle.event_desks.specs.Parts.{desk_at};
ghost use Rattle.event_storing.specs.Leaves.{refused, concluded, Leaves};

use event_desks::store_rows;
use event_effects::Acted;
use event_limits::over_limits;
use list_exchange::exchange;
use list_room::has_room;
use list_rows::{Row, Rows};
use rig::{Arbiter, Site, Tables};

// The code of an event, its site and arbiter after it, and how many messages are then under way. The site's rows and the list are written
// where the caller has them.
#[derive(Clone, Copy)]
pub struct Done {
    pub code: u64,
    pub site: Site,
    pub arbiter: Arbiter,
    pub count: usize,
}

impl Done {
    // A refusal: the code, and what came.
    pub fn refused(code: u64, site: Site, arbiter: Arbiter, count: usize) -> Done
        ensures { result ≡ refused code site arbiter count }
    {
        Done {
            code,
            site,
            arbiter,
            count,
        }
    }
}

// An inner call: site s, with what it was, has done what its rule says (a), and sends the rows of `out`; the message at `place` is taken
// off, none where place is `count`.
pub fn conclude(
    accepted: u64,
    s: u64,
    site: Site,
    arbiter: Arbiter,
    tables: &mut Tables,
    list: &mut Rows,
    count: usize,
    place: usize,
    a: Acted,
    out: &[Row],
) -> Done
    requires { SiteNumber s × (place ≤ count) × (count ≤ message_limit) × (a.count ≤ length out.now) × (a.count < message_limit) × ZeroPast count list.old }
    ensures { (n set : ℕ) → Leaves (concluded accepted (desk_at n s set site arbiter tables.old) list count place a out.now) s count tables list result }
{
    let d = a.desk;
    if over_limits(accepted, d.site.clock, d.arbiter.grant, out, a.count) {
        return Done::refused(9, site, arbiter, count);
    }
    if !has_room(list, count, place, a.count) {
        return Done::refused(8, site, arbiter, count);
    }
    store_rows(tables, s, d);
    let n = exchange(list, count, place, out, a.count);
    Done {
        code: 0,
        site: d.site,
        arbiter: d.arbiter,
        count: n,
    }
}
