//! The public calls of the broker.

ghost use Rattle.std.specs.Prelude.{◌≡◌, length};

use crate::values::{EVENT, all};
use cdc_broker::{Broker, Refusal, Taken};
use cdc_message::{Delivery, Item, Message};
use std::alloc::{AllocError, Global};
use std::process::Abort;

// A broker with one queue, which takes every event.
fn broker(rt: &impl Abort, alloc: Global) -> Broker
    ensures { length result.queues ≡ 1 }
{
    let mut bindings = Vec::with_capacity(alloc, 1).expect(rt, "memory");
    bindings.push_reserved(all(rt, alloc));
    let broker: Result<Broker, AllocError> = Broker::new(alloc, bindings);
    broker.expect(rt, "memory")
}

// Why a publish was ignored. None if it was accepted.
fn refusal(taken: Taken) -> Option<&'static str> {
    match taken {
        Taken::Accepted => None,
        Taken::Ignored(Refusal::WrongConnection) => Some("connection"),
        Taken::Ignored(Refusal::WrongTag) => Some("tag"),
    }
}

#[test]
fn a_broker_takes_publishes(rt: HostRuntime) {
    let mut broker = broker(&rt, rt.alloc());
    let is_taken: bool = broker.connect(1);
    assert!(rt; is_taken);
    let item = Item::Event(Message::of(rt.alloc(), &EVENT).expect(&rt, "memory"));
    let taken: Result<Taken, AllocError> = broker.publish(rt.alloc(), 1, 1, item);
    assert_eq!(rt; refusal(taken.expect(&rt, "memory")), None);
    for (connection, tag, why) in [(2, 2, "connection"), (1, 1, "tag")] {
        let taken = broker.publish(rt.alloc(), connection, tag, Item::EndMark);
        assert_eq!(rt; refusal(taken.expect(&rt, "memory")), Some(why));
    }
}

#[test]
fn a_queue_delivers(rt: HostRuntime) {
    let mut broker = broker(&rt, rt.alloc());
    let next: Result<Option<Delivery>, AllocError> = broker.next_for(rt.alloc(), 1);
    assert!(rt; next.expect(&rt, "memory").is_none());
}

#[test]
fn a_queue_rewinds(rt: HostRuntime) {
    let mut broker = broker(&rt, rt.alloc());
    broker.rewind(1);
}

#[test]
fn a_queue_takes_acknowledgements(rt: HostRuntime) {
    let mut broker = broker(&rt, rt.alloc());
    let is_acknowledged: bool = broker.ack(1, 1);
    assert!(rt; !is_acknowledged);
}

#[test]
fn a_queue_has_counts(rt: HostRuntime) {
    let broker = broker(&rt, rt.alloc());
    let (len, acked): (u64, u64) = (broker.queue_len(1), broker.acked(1));
    assert_eq!(rt; (len, acked), (0, 0));
}
