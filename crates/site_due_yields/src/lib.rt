// A yield that is due: whether a member must be yielded, and its yield, over a site's entries in three rows.
#![tactic(auto)]

ghost use Rattle.std.specs.Prelude.{◌≡◌, true, not, ◌&&◌, ◌<◌, ◌+◌, eqb, length};
ghost use Rattle.model.specs.Sets.{member};
ghost use Rattle.rig.specs.Limits.{site_limit};
ghost use Rattle.site_due_yields.specs.Entries.{before, after, YieldsIf};

use list_rows::Row;
use rig::{Message, Rig};

// A member's yield is due: it is held with number g, and an inquire with number q is remembered; 0 is none.
fn is_due(g: u64, q: u64) -> bool
    ensures { result ≡ not (eqb g 0) && not (eqb q 0) }
{
    g != 0 && q != 0
}

// An inner call: one turn over a site's members: member i + 1, whose entries stand at index i, is yielded if it must be.
pub fn yield_if(
    number: u64,
    members: u64,
    held: &mut [u64; Rig::SITES],
    heir: &mut [u64; Rig::SITES],
    inquired: &mut [u64; Rig::SITES],
    i: usize,
    out: &mut [Row],
    count: usize,
) -> usize
    requires { (member members (i + 1) ≡ true) × (i < site_limit) × (count < length out.old) }
    ensures { YieldsIf number members (i + 1) (before held heir inquired) (after held heir inquired) count out.old out.new result }
{
    let j = i as u64 + 1;
    let g = held[i];
    if !is_due(g, inquired[i]) {
        return count;
    }
    held[i] = 0;
    heir[i] = 0;
    inquired[i] = 0;
    list_rows::append(out, count, Message::yielding(number, j, g))
}
