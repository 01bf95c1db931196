// What a site does when it asks for its members' permissions.
#![tactic(auto)]

ghost use Rattle.std.specs.Prelude.{◌<◌, true, [], ◌∷◌, ◌≡◌, length};
ghost use Rattle.rig.specs.Messages.{request};
ghost use Rattle.model.specs.Sets.{member};
ghost use Rattle.model.specs.Ask.{requests, asked};
ghost use Rattle.list_rows.specs.Rows.{Appends};
ghost use Rattle.event_effects.specs.Effects.{CarriesOut};
ghost use Rattle.site_asks.specs.Needs.{AskFits};

use event_effects::Acted;
use list_rows::Row;
use rig::{Desk, Message, Mode, Site};
use rig_members::each_member;
use site_entries::cleared;

// One turn of the ask: the request to j, a member of the set.
fn request_member(number: u64, set: u64, seq: u64, j: u64, out: &mut [Row], count: usize) -> usize
    requires { (member set j ≡ true) × (count < length out.old) }
    ensures { Appends (request number j seq ∷ []) count out.old out.new result }
{
    list_rows::append(out, count, Message::request(number, j, seq))
}

// The requests to the members, ascending.
fn request_members(d: Desk, seq: u64, out: &mut [Row], count: usize) -> usize
    requires { AskFits d count out.old }
    ensures { Appends (requests d seq d.size) count out.old out.new result }
{
    let mut n = count;
    for j in each_member(d.size, d.members) {
        n = request_member(d.number, d.members, seq, j, out, n);
    }
    n
}

// An inner call: the site asks.
#[tactic(auto, unfolding(model::specs::Ask::asked))]
pub fn ask(d: Desk, out: &mut [Row], count: usize) -> Acted
    requires { AskFits d count out.old }
    ensures { CarriesOut (asked d) count out.old out.new result }
{
    let seq = d.site.clock + 1;
    let sent = request_members(d, seq, out, count);
    let site = Site {
        mode: Mode::Waiting { seq, failed: false },
        clock: seq,
    };
    Acted {
        desk: cleared(d, site),
        count: sent,
    }
}
