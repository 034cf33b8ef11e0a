//! A broker actor without peers reports so, and one with peers finds memory: it answers, delivers and finishes.

ghost use Rattle.std.specs.Prelude.{◌≡◌, [], vec_len};

use crate::names::Nothing;
use crate::receiving::learns_of_a_loss;
use cdc_actors::{BrokerEnd, BrokerPlan, RunFault, Turn};
use cdc_links::{LinkIn, LinkOut, SendRefused, link};
use cdc_match::Binding;
use cdc_message::{Answer, Confirm, Item, Packet};
use cdc_traffic::{Ack, ToBroker, ToConnector, ToSubscriber};
use std::alloc::Global;
use std::process::Abort;
use std::sync::Wait;

fn all_events(rt: &impl Abort, alloc: Global) -> Vec<Binding>
    ensures { vec_len result ≡ 1 }
{
    let binding = Binding::parse(alloc, &["all"]).expect(rt, "a binding");
    let mut bindings = Vec::new(alloc);
    bindings.push(binding).expect(rt, "memory");
    bindings
}

// A plan without faults.
fn no_plan(alloc: Global) -> BrokerPlan {
    BrokerPlan {
        lose_confirm: Vec::new(alloc),
        lose_publish: Vec::new(alloc),
        repeat: Vec::new(alloc),
    }
}

// The next turns of an actor have these results.
fn turn_so<R: Wait + Abort>(
    rt: &R,
    alloc: Global,
    end: &mut BrokerEnd,
    answers: &[Result<Turn, RunFault>],
) {
    for answer in answers {
        assert_eq!(rt; end.turn(rt, alloc), *answer);
    }
}

#[test]
fn a_broker_without_peers(rt: HostRuntime) {
    let bindings = all_events(&rt, rt.alloc());
    let plan = no_plan(rt.alloc());
    let (senders, inbox) = link::<ToBroker>(rt.alloc(), 8, 2).expect(&rt, "memory");
    let (mut confirmers, mut confirmed) = link::<ToConnector>(rt.alloc(), 5, 2).expect(
        &rt, "memory",
    );
    let (links, mut deliveries) = link::<ToSubscriber>(rt.alloc(), 9, 1).expect(&rt, "memory");
    let confirms = confirmers.pop().expect(&rt, "two senders");
    drop(senders);
    let mut end = BrokerEnd::new(rt.alloc(), 1, inbox, confirms, links, bindings, 8, plan).expect(
        &rt, "memory",
    );
    let gone = Err(RunFault::PeerGone);
    turn_so(&rt, rt.alloc(), &mut end, &[gone, gone]);
    assert!(rt; learns_of_a_loss(&rt, &mut confirmed) && learns_of_a_loss(&rt, &mut deliveries));
    assert_eq!(rt; confirmers.len(), 1);
}

// The connector publishes only the end mark, and reports that it is done.
fn publish_and_finish<R: Wait>(
    rt: &R,
    packets: &mut LinkOut<ToBroker>,
) -> Result<(), SendRefused<ToBroker>>
    requires first { packets.old.number ≡ 0 }
    requires silent { packets.old.sent ≡ [] }
{
    let connect = Packet::Connect { session: 1 };
    packets.send::<Nothing, R>(rt, ToBroker::Packet(connect))?;
    let publish = Packet::Publish {
        session: 1,
        tag: 1,
        item: Item::EndMark,
    };
    packets.send::<Nothing, R>(rt, ToBroker::Packet(publish))?;
    packets.send::<Nothing, R>(rt, ToBroker::Finish)
}

fn acknowledge<R: Wait>(rt: &R, acks: &mut LinkOut<ToBroker>) -> Result<(), SendRefused<ToBroker>>
    requires first { acks.old.number ≡ 1 }
    requires silent { acks.old.sent ≡ [] }
{
    let ack = Ack {
        subscriber: 1,
        position: 1,
    };
    acks.send::<Nothing, R>(rt, ToBroker::Ack(ack))
}

// Whether the broker's next answer is this one, to session 1.
fn is_answered<R: Wait>(rt: &R, confirmed: &mut LinkIn<ToConnector>, answer: Answer) -> bool {
    match confirmed.receive(rt) {
        Ok(ToConnector::Confirm(confirm)) => confirm == Confirm { session: 1, answer },
        _ => false,
    }
}

// Whether its next answer is this one, and the last one so far.
fn is_answered_alone<R: Wait>(rt: &R, confirmed: &mut LinkIn<ToConnector>, answer: Answer) -> bool {
    is_answered(rt, confirmed, answer) && matches!(confirmed.receive_ready(rt), Ok(None))
}

// Whether the subscriber is sent the end mark, and then the last message.
fn is_ended<R: Wait>(rt: &R, deliveries: &mut LinkIn<ToSubscriber>) -> bool {
    let marked = match deliveries.receive(rt) {
        Ok(ToSubscriber::Delivery(delivery)) => {
            delivery.position == 1 && matches!(&delivery.item, Item::EndMark)
        }
        _ => false,
    };
    marked && matches!(deliveries.receive(rt), Ok(ToSubscriber::Stop))
}

#[test]
fn a_broker_delivers_and_finishes(rt: HostRuntime) {
    let bindings = all_events(&rt, rt.alloc());
    let plan = no_plan(rt.alloc());
    let (mut senders, inbox) = link::<ToBroker>(rt.alloc(), 8, 2).expect(&rt, "memory");
    let (mut confirmers, mut confirmed) = link::<ToConnector>(rt.alloc(), 5, 2).expect(
        &rt, "memory",
    );
    let (links, mut deliveries) = link::<ToSubscriber>(rt.alloc(), 9, 1).expect(&rt, "memory");
    let confirms = confirmers.pop().expect(&rt, "two senders");
    let mut acks = senders.pop().expect(&rt, "two senders");
    let mut packets = senders.pop().expect(&rt, "two senders");
    let mut end = BrokerEnd::new(rt.alloc(), 1, inbox, confirms, links, bindings, 8, plan).expect(
        &rt, "memory",
    );
    assert!(rt; publish_and_finish(&rt, &mut packets).is_ok());
    drop(packets);
    // Three messages are ready, and each turn receives one.
    turn_so(&rt, rt.alloc(), &mut end, &[Ok(Turn::More)]);
    assert!(rt; is_answered_alone(&rt, &mut confirmed, Answer::Connected));
    turn_so(&rt, rt.alloc(), &mut end, &[Ok(Turn::More)]);
    assert!(rt; is_answered_alone(&rt, &mut confirmed, Answer::Confirmed(1)));
    turn_so(&rt, rt.alloc(), &mut end, &[Ok(Turn::More)]);
    assert!(rt; acknowledge(&rt, &mut acks).is_ok());
    drop(acks);
    turn_so(&rt, rt.alloc(), &mut end, &[Ok(Turn::Finished)]);
    assert!(rt; is_ended(&rt, &mut deliveries));
}

#[test]
fn a_broker_receives_what_is_ready_together(rt: HostRuntime) {
    let bindings = all_events(&rt, rt.alloc());
    let plan = no_plan(rt.alloc());
    let (mut senders, inbox) = link::<ToBroker>(rt.alloc(), 8, 2).expect(&rt, "memory");
    let (mut confirmers, mut confirmed) = link::<ToConnector>(rt.alloc(), 5, 2).expect(
        &rt, "memory",
    );
    let (links, _deliveries) = link::<ToSubscriber>(rt.alloc(), 9, 1).expect(&rt, "memory");
    let confirms = confirmers.pop().expect(&rt, "two senders");
    let mut acks = senders.pop().expect(&rt, "two senders");
    let mut packets = senders.pop().expect(&rt, "two senders");
    let mut end = BrokerEnd::new(rt.alloc(), 1, inbox, confirms, links, bindings, 8, plan).expect(
        &rt, "memory",
    );
    assert!(rt; publish_and_finish(&rt, &mut packets).is_ok());
    assert_eq!(rt; end.turn_with(&rt, rt.alloc(), 1), Ok(Turn::More));
    assert!(rt; is_answered(&rt, &mut confirmed, Answer::Connected));
    assert!(rt; is_answered_alone(&rt, &mut confirmed, Answer::Confirmed(1)));
    assert!(rt; acknowledge(&rt, &mut acks).is_ok());
    assert_eq!(rt; end.turn_with(&rt, rt.alloc(), 64), Ok(Turn::Finished));
}
