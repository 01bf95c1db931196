// The list of messages after an event: one message taken off, others put behind the rest.
#![tactic(auto)]

ghost use Rattle.std.specs.Prelude.{◌≡◌, suc, ◌<◌, ◌≤◌, ◌+◌, ◌-◌, length, take, drop};
ghost use Rattle.std.proofs.Math.Seq.{paste};
ghost use Rattle.rig.specs.Limits.{message_limit};
ghost use Rattle.list_rows.specs.Rows.{ZeroPast, without};
ghost use Rattle.list_exchange.specs.Exchange.{taken_out, Exchanged};

use list_rows::{Row, Rows};
use rig::Message;

// The message at `place` is taken off: the rows behind it are copied one place forward, and the last used row becomes zeros.
fn take_off(list: &mut [Row], count: usize, place: usize) -> usize
    requires { (place < count) × (count ≤ length list.old) }
    ensures { (result + 1 ≡ count) × (list.new ≡ taken_out count place list.old) }
{
    list.copy_within(place + 1..count, place);
    list[count - 1] = [0; Message::FIELDS];
    count - 1
}

// The first m rows of `sent` are put behind the first `count`.
fn append_all(list: &mut [Row], count: usize, sent: &[Row], m: usize) -> usize
    requires { (count + m ≤ length list.old) × (m ≤ length sent.now) }
    ensures { (result ≡ count + m) × (list.new ≡ paste list.old count sent.now m) }
{
    list[count..count + m].copy_from_slice(&sent[..m]);
    count + m
}

fn exchange_rows(list: &mut [Row], count: usize, place: usize, sent: &[Row], m: usize) -> usize
    requires { (place ≤ count) × (count ≤ length list.old) × (length (without place (take count list.old)) + m ≤ length list.old) × (m ≤ length sent.now) × ZeroPast count list.old }
    ensures { Exchanged count place list.old sent.now m result list.new }
{
    if place < count {
        let rest = take_off(list, count, place);
        return append_all(list, rest, sent, m);
    }
    append_all(list, count, sent, m)
}

// An inner call: the message at `place` is taken off, none where place is `count`, and the first m rows of `sent` are put behind the
// rest. The rows past the count are zeros, before and after.
pub fn exchange(list: &mut Rows, count: usize, place: usize, sent: &[Row], m: usize) -> usize
    requires { (place ≤ count) × (count ≤ message_limit) × (length (without place (take count list.old)) + m ≤ message_limit) × (m ≤ length sent.now) × ZeroPast count list.old }
    ensures { Exchanged count place list.old sent.now m result list.new × (length list.new ≡ message_limit) }
{
    exchange_rows(list, count, place, sent, m)
}
