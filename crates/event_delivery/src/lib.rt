// What a site does with a message that is delivered to it: the rule of the message's kind.
#![tactic(auto)]

ghost use Rattle.model.specs.Deliver.{delivered};
ghost use Rattle.event_effects.specs.Effects.{CarriesOut};
ghost use Rattle.event_delivery.specs.Needs.{Fits};

use arbiter_releases::on_release;
use arbiter_requests::on_request;
use arbiter_yields::on_yield;
use event_effects::Acted;
use list_rows::Row;
use rig::{Desk, Message};
use site_fails::on_fail;
use site_inquires::on_inquire;
use site_replies::on_reply;
use site_transfers::on_transfer;

// An inner call: the message m comes to its receiver's desk. Messages go to `out`, behind the first `count` rows.
#[tactic(auto, unfolding(model::specs::Deliver::delivered))]
pub fn deliver(d: Desk, m: Message, out: &mut [Row], count: usize) -> Acted
    requires { Fits d m count out.old }
    ensures { CarriesOut (delivered d m) count out.old out.new result }
{
    match m.kind {
        Message::REQUEST => on_request(d, out, count, m.from, m.number),
        Message::REPLY => on_reply(d, m.about, m.number, out, count),
        Message::RELEASE => on_release(d, out, count, m.from, m.about, m.number),
        Message::INQUIRE => on_inquire(d, m.from, m.number, out, count),
        Message::FAIL => on_fail(d, m.number, out, count),
        Message::YIELD => on_yield(d, out, count, m.from, m.number),
        Message::TRANSFER => on_transfer(d, m.from, m.about, m.number, out, count),
        _ => Acted { desk: d, count },
    }
}
