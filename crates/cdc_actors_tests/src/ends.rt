//! An actor whose peer is gone reports so, and reports the same from then on. A subscriber actor finds memory and
//! acknowledges what it takes.

ghost use Rattle.std.specs.Prelude.{◌≡◌, [], false};

use crate::names::Nothing;
use crate::receiving::learns_of_a_loss;
use cdc_actors::{ClientEnd, Place, RunFault, SubscriberEnd, Turn};
use cdc_links::{LinkIn, LinkOut, SendRefused, link};
use cdc_message::{Delivery, Item};
use cdc_traffic::{Ack, Reply, ToBroker, ToLedger, ToSubscriber};
use cdc_types::Batch;
use std::alloc::Global;
use std::process::Abort;
use std::sync::Wait;

// Whether the result for a pulse is that the ledger is gone.
fn finds_no_ledger<R: Wait>(rt: &R, alloc: Global, client: &mut ClientEnd, now: u64) -> bool
    requires { client.old.work.finished ≡ false }
    ensures { client.new.work.finished ≡ client.old.work.finished }
{
    let reply = client.submit(rt, alloc, Batch::Pulse { now });
    matches!(&reply, Err(RunFault::PeerGone))
}

#[test]
fn a_client_without_a_ledger(rt: HostRuntime) {
    let (mut outs, into) = link::<ToLedger>(rt.alloc(), 4, 2).expect(&rt, "memory");
    let (_replies, answers) = link::<Reply>(rt.alloc(), 1, 1).expect(&rt, "memory");
    let requests = outs.pop().expect(&rt, "two senders");
    drop(into);
    let mut client = ClientEnd::new(rt.alloc(), 1, 1, requests, answers);
    assert!(rt; finds_no_ledger(&rt, rt.alloc(), &mut client, 5));
    assert!(rt; finds_no_ledger(&rt, rt.alloc(), &mut client, 6));
}

#[test]
fn a_client_that_met_a_fault_reports_it(rt: HostRuntime) {
    let (mut outs, mut into) = link::<ToLedger>(rt.alloc(), 4, 2).expect(&rt, "memory");
    let (replies, answers) = link::<Reply>(rt.alloc(), 1, 1).expect(&rt, "memory");
    let requests = outs.pop().expect(&rt, "two senders");
    drop(replies);
    let mut client = ClientEnd::new(rt.alloc(), 1, 1, requests, answers);
    assert!(rt; finds_no_ledger(&rt, rt.alloc(), &mut client, 5));
    assert!(rt; learns_of_a_loss(&rt, &mut into));
    assert_eq!(rt; (outs.len(), into.received_count()), (1, 1));
}

#[test]
fn a_client_that_never_worked_reports_it(rt: HostRuntime) {
    let (mut outs, mut into) = link::<ToLedger>(rt.alloc(), 4, 2).expect(&rt, "memory");
    let (_replies, answers) = link::<Reply>(rt.alloc(), 1, 1).expect(&rt, "memory");
    let requests = outs.pop().expect(&rt, "two senders");
    let stop = ClientEnd::new(rt.alloc(), 1, 1, requests, answers).abort(&rt);
    assert_eq!(rt; (stop.system(), stop.place()), (1, Place::Client(1)));
    assert_eq!(rt; stop.met().fault(), RunFault::OutOfMemory);
    assert!(rt; learns_of_a_loss(&rt, &mut into));
    assert_eq!(rt; outs.len(), 1);
}

// The next turns of an actor have these results.
fn turn_so<R: Wait + Abort>(
    rt: &R,
    alloc: Global,
    end: &mut SubscriberEnd,
    answers: &[Result<Turn, RunFault>],
) {
    for answer in answers {
        assert_eq!(rt; end.turn(rt, alloc), *answer);
    }
}

#[test]
fn a_subscriber_without_a_broker(rt: HostRuntime) {
    let (mut outs, mut into) = link::<ToBroker>(rt.alloc(), 4, 2).expect(&rt, "memory");
    let (broker, inbox) = link::<ToSubscriber>(rt.alloc(), 1, 1).expect(&rt, "memory");
    let acks = outs.pop().expect(&rt, "two senders");
    drop(broker);
    let mut end = SubscriberEnd::new(rt.alloc(), 1, 1, inbox, acks, None);
    let gone = Err(RunFault::PeerGone);
    turn_so(&rt, rt.alloc(), &mut end, &[gone, gone]);
    assert!(rt; learns_of_a_loss(&rt, &mut into));
    assert_eq!(rt; outs.len(), 1);
}

// The broker delivers the end mark, and then sends its last message.
fn deliver_the_end<R: Wait>(
    rt: &R,
    broker: &mut LinkOut<ToSubscriber>,
) -> Result<(), SendRefused<ToSubscriber>>
    requires first { broker.old.number ≡ 0 }
    requires silent { broker.old.sent ≡ [] }
{
    let delivery = Delivery {
        position: 1,
        item: Item::EndMark,
    };
    broker.send::<Nothing, R>(rt, ToSubscriber::Delivery(delivery))?;
    broker.send::<Nothing, R>(rt, ToSubscriber::Stop)
}

// The acknowledgement that was received, if one was.
fn acknowledged<R: Wait>(rt: &R, into: &mut LinkIn<ToBroker>) -> Option<Ack> {
    match into.receive(rt) {
        Ok(ToBroker::Ack(ack)) => Some(ack),
        _ => None,
    }
}

#[test]
fn a_subscriber_takes_the_end_and_stops(rt: HostRuntime) {
    let (mut outs, mut into) = link::<ToBroker>(rt.alloc(), 4, 2).expect(&rt, "memory");
    let (mut brokers, inbox) = link::<ToSubscriber>(rt.alloc(), 2, 1).expect(&rt, "memory");
    let acks = outs.pop().expect(&rt, "two senders");
    let mut broker = brokers.pop().expect(&rt, "one sender");
    assert!(rt; deliver_the_end(&rt, &mut broker).is_ok());
    drop(broker);
    let mut end = SubscriberEnd::new(rt.alloc(), 1, 1, inbox, acks, Some(1));
    let answers = [Ok(Turn::More), Ok(Turn::Finished), Ok(Turn::Finished)];
    turn_so(&rt, rt.alloc(), &mut end, &answers);
    let ack = Ack {
        subscriber: 1,
        position: 1,
    };
    assert_eq!(rt; acknowledged(&rt, &mut into), Some(ack));
}
