// Whether an event passes a limit of a rig's numbers.
#![tactic(auto)]

ghost use Rattle.std.specs.Prelude.{◌≡◌, not, ◌||◌, map, leb, take};
ghost use Rattle.std.specs.List.{list_all};
ghost use Rattle.rig.specs.Limits.{event_limit, number_limit};
ghost use Rattle.model.specs.Event.{numbers_fit};
ghost use Rattle.list_rows.specs.Rows.{message_of};

use list_rows::{Row, message};
use rig::Rig;
use rig_reads::is_number;

// Whether a message's number is in range.
#[tactic(auto, unfolding(model::specs::Shape::is_number))]
fn has_number(r: &Row) -> bool
    ensures { result ≡ leb (message_of r.now).number number_limit }
{
    is_number(message(*r).number)
}

// Whether the numbers of the first n messages, or of all where there are fewer, are in range.
fn all_numbers(sent: &[Row], n: usize) -> bool
    ensures { result ≡ list_all (λ r. leb (message_of r).number number_limit) (take n sent.now) }
{
    sent.iter().take(n).all(|r| has_number(r))
}

// Whether an event is turned down with 9: 1,000,000 events were accepted before it, or a number passes 2,000,000. The numbers are the
// clock and the grant number of its site after it, and those of the first n messages that it sends.
#[tactic(auto, using(crate::proofs::Numbers::numbers_of_rows), unfolding(model::specs::Event::numbers_fit))]
pub fn over_limits(accepted: u64, clock: u64, grant: u64, sent: &[Row], n: usize) -> bool
    ensures { result ≡ leb event_limit accepted || not (numbers_fit clock grant (map message_of (take n sent.now))) }
{
    accepted >= Rig::EVENTS || !is_number(clock) || !is_number(grant) || !all_numbers(sent, n)
}
