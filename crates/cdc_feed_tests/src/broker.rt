//! What contracts don't state: that the allocations of calls succeed, and that a whole run of calls goes as expected.

use cdc_broker::{Broker, Refusal, Taken};
use cdc_match::Binding;
use cdc_message::{Delivery, Item, Message};
use cdc_types::{Event, EventAccount, EventKind, EventTransfer};
use std::alloc::{AllocError, Global};
use std::test::Fail;

// An account of the event, with what was debited and credited.
fn account(id: u128, debits_posted: u128, credits_posted: u128, timestamp: u64) -> EventAccount {
    EventAccount {
        id,
        debits_pending: 0,
        debits_posted,
        credits_pending: 0,
        credits_posted,
        user_data_128: 0,
        user_data_64: 0,
        user_data_32: 0,
        code: 10,
        flags: 0,
        timestamp,
    }
}

// The event of a transfer from account 1 to account 2, after which `moved` was moved in all.
fn event(id: u128, amount: u128, moved: u128, timestamp: u64, ledger: u32) -> Event {
    Event {
        timestamp,
        kind: EventKind::SinglePhase,
        ledger,
        transfer: EventTransfer {
            id,
            amount,
            pending_id: 0,
            user_data_128: 0,
            user_data_64: 0,
            user_data_32: 0,
            timeout: 0,
            code: 1,
            flags: 0,
            timestamp,
        },
        debit_account: account(1, moved, 0, 1000),
        credit_account: account(2, 0, moved, 1001),
    }
}

// The item of an event.
fn item(alloc: Global, event: &Event) -> Result<Item, AllocError> {
    Ok(Item::Event(Message::of(alloc, event)?))
}

// A broker with a queue for each of these bindings.
fn broker(alloc: Global, bindings: &[&[&str]]) -> Result<Broker, Fail> {
    let mut parsed = Vec::new(alloc);
    for words in bindings {
        parsed.push(Binding::parse(alloc, words)?)?;
    }
    Ok(Broker::new(alloc, parsed)?)
}

// A call of a broker.
#[derive(Clone, Copy)]
enum Call {
    Connect(u64),
    // Publishes the event with this timestamp, or an end mark, under this connection and tag.
    Publish(u64, u64, Option<u64>),
    // A call for the queue with this number.
    Queue(usize, QueueCall),
}

// A call for one queue.
#[derive(Clone, Copy)]
enum QueueCall {
    Len,
    HasNext,
    Next,
    Ack(u64),
    Acked,
    Rewind,
}

// The answer to a call.
#[derive(Clone, Copy, Debug, PartialEq, Eq)]
enum Answer {
    Taken(Taken),
    States(bool),
    Number(u64),
    Position(Option<u64>),
    Nothing,
    NoQueue,
}

const ACCEPTED: Answer = Answer::Taken(Taken::Accepted);

const WRONG_TAG: Answer = Answer::Taken(Taken::Ignored(Refusal::WrongTag));

const WRONG_CONNECTION: Answer = Answer::Taken(Taken::Ignored(Refusal::WrongConnection));

// The item of the event with that timestamp, or an end mark.
fn item_at(alloc: Global, timestamp: Option<u64>) -> Result<Item, AllocError> {
    match timestamp {
        Some(2000) => item(alloc, &event(1, 5, 5, 2000, 700)),
        Some(timestamp) => item(alloc, &event(2, 7, 12, timestamp, 800)),
        None => Ok(Item::EndMark),
    }
}

// The position of what was delivered.
fn position(delivery: Option<Delivery>) -> Option<u64> {
    match delivery {
        Some(delivery) => Some(delivery.position),
        None => None,
    }
}

fn ask_queue(
    alloc: Global,
    broker: &mut Broker,
    i: usize,
    call: QueueCall,
) -> Result<Answer, AllocError> {
    if i == 0 || i > broker.queue_count() {
        return Ok(Answer::NoQueue);
    }
    Ok(match call {
        QueueCall::Len => Answer::Number(broker.queue_len(i)),
        QueueCall::HasNext => Answer::States(broker.has_next(i)),
        QueueCall::Next => Answer::Position(position(broker.next_for(alloc, i)?)),
        QueueCall::Ack(position) => Answer::States(broker.ack(i, position)),
        QueueCall::Acked => Answer::Number(broker.acked(i)),
        QueueCall::Rewind => {
            broker.rewind(i);
            Answer::Nothing
        }
    })
}

fn ask(alloc: Global, broker: &mut Broker, call: Call) -> Result<Answer, AllocError> {
    match call {
        Call::Connect(connection) => Ok(Answer::States(broker.connect(connection))),
        Call::Publish(connection, tag, timestamp) => {
            let item = item_at(alloc, timestamp)?;
            Ok(Answer::Taken(broker.publish(alloc, connection, tag, item)?))
        }
        Call::Queue(i, call) => ask_queue(alloc, broker, i, call),
    }
}

// Calls and answers for a broker whose first queue takes everything, the second what is of ledger 700, and the third
// only end marks.
const CALLS: [(Call, Answer); 39] = [
    (Call::Publish(0, 1, Some(2000)), WRONG_TAG),
    (Call::Publish(1, 1, Some(2000)), WRONG_CONNECTION),
    (Call::Connect(0), Answer::States(false)),
    (Call::Connect(1), Answer::States(true)),
    (Call::Publish(1, 2, Some(2000)), WRONG_TAG),
    (Call::Queue(1, QueueCall::HasNext), Answer::States(false)),
    (Call::Publish(1, 1, Some(2000)), ACCEPTED),
    (Call::Queue(1, QueueCall::HasNext), Answer::States(true)),
    (Call::Publish(1, 1, Some(2000)), WRONG_TAG),
    (Call::Publish(2, 2, Some(2001)), WRONG_CONNECTION),
    (Call::Connect(1), Answer::States(false)),
    (Call::Connect(2), Answer::States(true)),
    (Call::Publish(2, 2, Some(2001)), WRONG_TAG),
    (Call::Publish(2, 1, Some(2001)), ACCEPTED),
    (Call::Publish(2, 2, None), ACCEPTED),
    (Call::Queue(1, QueueCall::Len), Answer::Number(3)),
    (Call::Queue(2, QueueCall::Len), Answer::Number(2)),
    (Call::Queue(3, QueueCall::Len), Answer::Number(1)),
    (Call::Queue(4, QueueCall::Len), Answer::NoQueue),
    (Call::Queue(1, QueueCall::Next), Answer::Position(Some(1))),
    (Call::Queue(1, QueueCall::Next), Answer::Position(Some(2))),
    (Call::Queue(1, QueueCall::Next), Answer::Position(Some(3))),
    (Call::Queue(1, QueueCall::Next), Answer::Position(None)),
    (Call::Queue(2, QueueCall::Next), Answer::Position(Some(1))),
    (Call::Queue(1, QueueCall::Ack(4)), Answer::States(false)),
    (Call::Queue(1, QueueCall::Ack(0)), Answer::States(false)),
    (Call::Queue(1, QueueCall::Rewind), Answer::Nothing),
    (Call::Queue(1, QueueCall::Next), Answer::Position(Some(1))),
    (Call::Queue(1, QueueCall::Ack(2)), Answer::States(true)),
    (Call::Queue(1, QueueCall::Next), Answer::Position(Some(3))),
    (Call::Queue(1, QueueCall::Ack(1)), Answer::States(true)),
    (Call::Queue(1, QueueCall::Acked), Answer::Number(2)),
    (Call::Queue(1, QueueCall::Rewind), Answer::Nothing),
    (Call::Queue(1, QueueCall::Next), Answer::Position(Some(3))),
    (Call::Queue(2, QueueCall::Ack(2)), Answer::States(false)),
    (Call::Queue(2, QueueCall::Acked), Answer::Number(0)),
    (Call::Queue(2, QueueCall::Next), Answer::Position(Some(2))),
    (Call::Queue(3, QueueCall::Next), Answer::Position(Some(1))),
    (Call::Queue(3, QueueCall::Next), Answer::Position(None)),
];

#[test]
fn connections_tags_and_queues(rt: HostRuntime) -> Result<(), Fail> {
    let mut broker = broker(rt.alloc(), &[&["all"], &["all", "ledger=700"], &["any"]])?;
    for (place, (call, answer)) in CALLS.iter().enumerate() {
        assert_eq!(rt;
            ask(rt.alloc(), &mut broker, *call)?,
            *answer,
            "call {place}"
        );
    }
    Ok(())
}

#[test]
fn a_queue_of_ten_thousand(rt: HostRuntime) -> Result<(), Fail> {
    let mut broker = broker(rt.alloc(), &[&["all"], &["any", "ledger=700"]])?;
    assert_eq!(rt;
        ask(rt.alloc(), &mut broker, Call::Connect(1))?,
        Answer::States(true)
    );
    for tag in 1..=10_000 {
        let publish = Call::Publish(1, tag, Some(2000));
        assert_eq!(rt; ask(rt.alloc(), &mut broker, publish)?, ACCEPTED);
    }
    for i in 1..=2 {
        for wanted in 1..=10_000 {
            let next = Call::Queue(i, QueueCall::Next);
            assert_eq!(rt;
                ask(rt.alloc(), &mut broker, next)?,
                Answer::Position(Some(wanted))
            );
        }
    }
    Ok(())
}
