//! An actor whose peer is gone reports so, and reports the same from then on. A connector begins, or refuses a start
//! that isn't allowed.

ghost use Rattle.std.specs.Prelude.{◌≡◌};

use crate::names::Nothing;
use crate::receiving::learns_of_a_loss;
use cdc_actors::{ConnectorEnd, RunFault, Turn};
use cdc_links::{LinkIn, LinkOut, SendRefused, link};
use cdc_message::{Answer, Confirm, Packet};
use cdc_progress::{MemoryStore, Progress};
use cdc_traffic::{ToBroker, ToConnector, ToLedger};
use cdc_types::EventTimestamp;
use std::alloc::Global;
use std::process::Abort;
use std::sync::Wait;

// The next turns of an actor have these results.
fn turn_so<R: Wait + Abort>(
    rt: &R,
    alloc: Global,
    end: &mut ConnectorEnd<MemoryStore>,
    answers: &[Result<Turn, RunFault>],
) {
    for answer in answers {
        assert_eq!(rt; end.turn(rt, alloc), *answer);
    }
}

#[test]
fn a_connector_without_a_broker(rt: HostRuntime) {
    let plan = Vec::new(rt.alloc());
    let (mut asking, mut ledger) = link::<ToLedger>(rt.alloc(), 4, 2).expect(&rt, "memory");
    let (mut sending, broker) = link::<ToBroker>(rt.alloc(), 4, 1).expect(&rt, "memory");
    let (_answers, inbox) = link::<ToConnector>(rt.alloc(), 5, 2).expect(&rt, "memory");
    let _client = asking.pop().expect(&rt, "two senders");
    let polls = asking.pop().expect(&rt, "two senders");
    let packets = sending.pop().expect(&rt, "one sender");
    drop(broker);
    let mut connector = ConnectorEnd::new(
        1,
        inbox,
        polls,
        packets,
        MemoryStore::new(),
        None,
        1,
        plan,
    );
    let gone = Err(RunFault::PeerGone);
    turn_so(&rt, rt.alloc(), &mut connector, &[gone, gone]);
    assert!(rt; learns_of_a_loss(&rt, &mut ledger));
}

#[test]
fn a_connector_that_may_not_start_where_it_is_asked_to(rt: HostRuntime) {
    let plan = Vec::new(rt.alloc());
    let (mut asking, mut ledger) = link::<ToLedger>(rt.alloc(), 4, 2).expect(&rt, "memory");
    let (mut sending, _broker) = link::<ToBroker>(rt.alloc(), 4, 1).expect(&rt, "memory");
    let (_answers, inbox) = link::<ToConnector>(rt.alloc(), 5, 2).expect(&rt, "memory");
    let _client = asking.pop().expect(&rt, "two senders");
    let polls = asking.pop().expect(&rt, "two senders");
    let packets = sending.pop().expect(&rt, "one sender");
    let store = MemoryStore::with_faults(Some(Progress::new(3, 2000, 0)), 0, false);
    let start = EventTimestamp::new(2000);
    let mut connector = ConnectorEnd::new(1, inbox, polls, packets, store, start, 1, plan);
    let refused = Err(RunFault::StartNotAllowed);
    turn_so(&rt, rt.alloc(), &mut connector, &[refused, refused]);
    assert!(rt; learns_of_a_loss(&rt, &mut ledger));
}

// Whether the ledger's next message is the first poll.
fn is_polled<R: Wait>(rt: &R, ledger: &mut LinkIn<ToLedger>) -> bool {
    match ledger.receive(rt) {
        Ok(ToLedger::Poll(poll)) => poll.session == 1 && poll.number == 1,
        _ => false,
    }
}

// Whether the broker's next message connects the first session.
fn is_connected<R: Wait>(rt: &R, broker: &mut LinkIn<ToBroker>) -> bool {
    matches!(
        broker.receive(rt),
        Ok(ToBroker::Packet(Packet::Connect { session: 1 }))
    )
}

#[test]
fn a_connector_begins(rt: HostRuntime) {
    let plan = Vec::new(rt.alloc());
    let (mut asking, mut ledger) = link::<ToLedger>(rt.alloc(), 4, 1).expect(&rt, "memory");
    let (mut sending, mut broker) = link::<ToBroker>(rt.alloc(), 4, 1).expect(&rt, "memory");
    let (_answers, inbox) = link::<ToConnector>(rt.alloc(), 5, 2).expect(&rt, "memory");
    let polls = asking.pop().expect(&rt, "one sender");
    let packets = sending.pop().expect(&rt, "one sender");
    let mut connector = ConnectorEnd::new(
        1,
        inbox,
        polls,
        packets,
        MemoryStore::new(),
        None,
        1,
        plan,
    );
    turn_so(&rt, rt.alloc(), &mut connector, &[Ok(Turn::More)]);
    assert!(rt; is_polled(&rt, &mut ledger));
    assert!(rt; is_connected(&rt, &mut broker));
}

// The broker answers the connection twice.
fn answer_twice<R: Wait>(
    rt: &R,
    confirms: &mut LinkOut<ToConnector>,
) -> Result<(), SendRefused<ToConnector>>
    requires { confirms.old.number ≡ 1 }
{
    let confirm = Confirm {
        session: 1,
        answer: Answer::Connected,
    };
    confirms.send::<Nothing, R>(rt, ToConnector::Confirm(confirm))?;
    confirms.send::<Nothing, R>(rt, ToConnector::Confirm(confirm))
}

// Two messages are ready, and each turn receives one. The second one answers no packet.
#[test]
fn a_connector_receives_one_message_in_a_turn(rt: HostRuntime) {
    let plan = Vec::new(rt.alloc());
    let (mut asking, _ledger) = link::<ToLedger>(rt.alloc(), 4, 1).expect(&rt, "memory");
    let (mut sending, _broker) = link::<ToBroker>(rt.alloc(), 4, 1).expect(&rt, "memory");
    let (mut answers, inbox) = link::<ToConnector>(rt.alloc(), 5, 2).expect(&rt, "memory");
    let polls = asking.pop().expect(&rt, "one sender");
    let packets = sending.pop().expect(&rt, "one sender");
    let mut confirms = answers.pop().expect(&rt, "two senders");
    let mut connector = ConnectorEnd::new(
        1,
        inbox,
        polls,
        packets,
        MemoryStore::new(),
        None,
        1,
        plan,
    );
    assert!(rt; answer_twice(&rt, &mut confirms).is_ok());
    let gone = Err(RunFault::PeerGone);
    turn_so(
        &rt,
        rt.alloc(),
        &mut connector,
        &[Ok(Turn::More), Ok(Turn::More), gone],
    );
}
