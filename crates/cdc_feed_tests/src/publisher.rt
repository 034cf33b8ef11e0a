//! What contracts don't state: that the allocations of calls succeed, and that a whole course of calls goes as
//! expected.

use cdc_message::{Item, Packet};
use cdc_progress::{MemoryStore, Progress, ProgressStore, StoreError};
use cdc_publisher::{Poll, Session, StartError};
use cdc_types::{Event, EventAccount, EventKind, EventTimestamp, EventTransfer, Limits};
use std::alloc::{AllocError, Global};
use std::test::Fail;

// An account of the event, with what was debited and credited.
fn account(id: u128, debits_posted: u128, credits_posted: u128, timestamp: u64) -> EventAccount {
    EventAccount {
        id,
        debits_pending: 0,
        debits_posted,
        credits_pending: 0,
        credits_posted,
        user_data_128: 0,
        user_data_64: 0,
        user_data_32: 0,
        code: 10,
        flags: 0,
        timestamp,
    }
}

// The event of a transfer of 100 in this ledger.
fn event(timestamp: u64, ledger: u32) -> Event {
    Event {
        timestamp,
        kind: EventKind::SinglePhase,
        ledger,
        transfer: EventTransfer {
            id: 1,
            amount: 100,
            pending_id: 0,
            user_data_128: 0,
            user_data_64: 0,
            user_data_32: 0,
            timeout: 0,
            code: 1,
            flags: 0,
            timestamp,
        },
        debit_account: account(1, 100, 0, 1000),
        credit_account: account(2, 0, 100, 1001),
    }
}

// Offers an event to a session, if it wants events, and returns whether it does.
fn offer_event(session: &mut Session, event: Event, complete: bool) -> bool {
    let Some(poll) = session.wants() else {
        return false;
    };
    if poll.limit == 0 || event.timestamp <= poll.after || event.timestamp > Limits::TIMESTAMP {
        return false;
    }
    session.offer(&[event], complete);
    true
}

// Offers no events to a session, if it wants events, and returns whether it does.
fn offer_none(session: &mut Session, complete: bool) -> bool {
    if session.wants().is_none() {
        return false;
    }
    session.offer(&[], complete);
    true
}

// A packet that a session sends: its numbers, and the ledger of its event.
#[derive(Clone, Copy, Debug, PartialEq, Eq)]
enum Sent {
    Nothing,
    Connect(u64),
    Event(u64, u64, u32),
    EndMark(u64, u64),
}

// Lets a session send its next packet.
fn send(session: &mut Session, alloc: Global) -> Result<Sent, AllocError> {
    match session.next_packet(alloc)? {
        None => Ok(Sent::Nothing),
        Some(Packet::Connect { session }) => Ok(Sent::Connect(session)),
        Some(Packet::Publish { session, tag, item }) => match item {
            Item::Event(message) => Ok(Sent::Event(session, tag, message.headers().ledger)),
            Item::EndMark => Ok(Sent::EndMark(session, tag)),
        },
    }
}

// The record that a store holds: a session, a timestamp and a start, which is no later.
type Held = Option<(u64, u32, u32)>;

fn progress(held: Held) -> Option<Progress> {
    match held {
        Some((session, timestamp, start)) => Some(Progress::new(
            session,
            u64::from(timestamp),
            u64::from(start.min(timestamp)),
        )),
        None => None,
    }
}

// The number and the base of a session that starts over this store, after a timestamp if one is given.
fn start(
    alloc: Global,
    store: &mut MemoryStore,
    at: Option<EventTimestamp>,
) -> Result<(u64, u64), StartError> {
    let session = Session::start(alloc, store, 1, at)?;
    Ok((session.number(), session.base()))
}

#[test]
fn a_session_starts_where_its_number_is_saved(rt: HostRuntime) {
    let read_fault = Err(StartError::Store(StoreError::ReadFault));
    let write_fault = Err(StartError::Store(StoreError::WriteFault));
    let rows: [(Held, u32, Result<(u64, u64), StartError>, Held); 6] = [
        (None, 0, Ok((1, 0)), Some((1, 0, 0))),
        (Some((2, 2000, 0)), 0, Ok((3, 2000)), Some((3, 2000, 0))),
        (
            Some((2, 2001, 2000)),
            0,
            Ok((3, 2001)),
            Some((3, 2001, 2000)),
        ),
        (Some((1, 2000, 0)), 1, read_fault, Some((1, 2000, 0))),
        (Some((1, 2000, 0)), 2, write_fault, Some((2, 2000, 0))),
        (
            Some((u64::MAX, 2000, 0)),
            0,
            Err(StartError::SessionsExhausted),
            Some((u64::MAX, 2000, 0)),
        ),
    ];
    for (held, fails_at, started, held_then) in rows {
        let mut store = MemoryStore::with_faults(progress(held), u64::from(fails_at), true);
        assert_eq!(rt; start(rt.alloc(), &mut store, None), started);
        assert_eq!(rt; store.load(), Ok(progress(held_then)));
    }
}

// A start may be asked for only if nothing is saved; a store that can't be read is found before that, and that there
// is no further number after it.
#[test]
fn a_session_starts_late_where_nothing_is_saved(rt: HostRuntime) {
    let read_fault = Err(StartError::Store(StoreError::ReadFault));
    let not_allowed = Err(StartError::StartNotAllowed);
    let rows: [(Held, u32, Result<(u64, u64), StartError>, Held); 5] = [
        (None, 0, Ok((1, 2000)), Some((1, 2000, 2000))),
        (Some((1, 0, 0)), 0, not_allowed, Some((1, 0, 0))),
        (Some((1, 2000, 2000)), 0, not_allowed, Some((1, 2000, 2000))),
        (Some((1, 2000, 0)), 1, read_fault, Some((1, 2000, 0))),
        (
            Some((u64::MAX, 5, 0)),
            0,
            not_allowed,
            Some((u64::MAX, 5, 0)),
        ),
    ];
    for (held, fails_at, started, held_then) in rows {
        let mut store = MemoryStore::with_faults(progress(held), u64::from(fails_at), true);
        assert_eq!(rt;
            start(rt.alloc(), &mut store, EventTimestamp::new(2000)),
            started
        );
        assert_eq!(rt; store.load(), Ok(progress(held_then)));
    }
}

// A call of a session.
#[derive(Clone, Copy)]
enum Call {
    Wants,
    // Offers the event with this timestamp and ledger, and whether no other one follows.
    Offer(u64, u32, bool),
    OfferNone(bool),
    HasPacket,
    Send,
    Confirm(u64, u64),
    Confirmed,
    Done,
    Save,
}

// The answer to a call; after a save, what the store then holds.
#[derive(Clone, Copy, Debug, PartialEq, Eq)]
enum Answer {
    Poll(Option<Poll>),
    States(bool),
    Sent(Sent),
    EventTimestamp(u64),
    Holds(Result<Option<Progress>, StoreError>),
}

fn save(session: &Session, store: &mut MemoryStore) -> Result<Option<Progress>, StoreError> {
    session.save(store)?;
    store.load()
}

fn ask(
    alloc: Global,
    session: &mut Session,
    store: &mut MemoryStore,
    call: Call,
) -> Result<Answer, AllocError> {
    Ok(match call {
        Call::Wants => Answer::Poll(session.wants()),
        Call::Offer(timestamp, ledger, complete) => {
            Answer::States(offer_event(session, event(timestamp, ledger), complete))
        }
        Call::OfferNone(complete) => Answer::States(offer_none(session, complete)),
        Call::HasPacket => Answer::States(session.has_packet()),
        Call::Send => Answer::Sent(send(session, alloc)?),
        Call::Confirm(number, tag) => Answer::States(session.confirm(number, tag)),
        Call::Confirmed => Answer::EventTimestamp(session.confirmed()),
        Call::Done => Answer::States(session.done()),
        Call::Save => Answer::Holds(save(session, store)),
    })
}

const YES: Answer = Answer::States(true);

const NO: Answer = Answer::States(false);

const NOTHING: Answer = Answer::Sent(Sent::Nothing);

// Calls and answers for a session over an empty store, from its connect to its end mark.
const COURSE: [(Call, Answer); 32] = [
    (Call::Send, Answer::Sent(Sent::Connect(1))),
    (Call::Send, NOTHING),
    (Call::Wants, Answer::Poll(Some(Poll { after: 0, limit: 1 }))),
    (Call::Offer(3000, 700, false), YES),
    (Call::Wants, Answer::Poll(None)),
    (Call::Confirm(1, 1), NO),
    (Call::HasPacket, YES),
    (Call::Send, Answer::Sent(Sent::Event(1, 1, 700))),
    (Call::Send, NOTHING),
    (Call::Wants, Answer::Poll(None)),
    (Call::Confirm(2, 1), NO),
    (Call::Confirm(1, 2), NO),
    (Call::Confirm(1, 0), NO),
    (Call::Confirmed, Answer::EventTimestamp(0)),
    (Call::Confirm(1, 1), YES),
    (Call::Confirm(1, 1), NO),
    (Call::Confirmed, Answer::EventTimestamp(3000)),
    (Call::HasPacket, NO),
    (Call::Offer(Limits::TIMESTAMP, 800, true), YES),
    (Call::Send, Answer::Sent(Sent::Event(1, 2, 800))),
    (Call::Send, NOTHING),
    (Call::Confirm(1, 2), YES),
    (Call::OfferNone(true), NO),
    (Call::Send, Answer::Sent(Sent::EndMark(1, 3))),
    (Call::Send, NOTHING),
    (Call::Done, NO),
    (Call::Confirm(1, 3), YES),
    (Call::Done, YES),
    (Call::HasPacket, NO),
    (Call::Confirmed, Answer::EventTimestamp(Limits::TIMESTAMP)),
    (Call::OfferNone(true), NO),
    (Call::Send, NOTHING),
];

#[test]
fn a_course_from_its_connect_to_its_end_mark(rt: HostRuntime) -> Result<(), Fail> {
    let mut store = MemoryStore::new();
    let mut session = Session::start(rt.alloc(), &mut store, 1, None)?;
    for (place, (call, answer)) in COURSE.iter().enumerate() {
        let given = ask(rt.alloc(), &mut session, &mut store, *call)?;
        assert_eq!(rt; given, *answer, "call {place}");
    }
    Ok(())
}

// Calls and answers for a session with a window of three events, whose confirms come out of order.
const WIDE: [(Call, Answer); 23] = [
    (Call::Send, Answer::Sent(Sent::Connect(1))),
    (Call::Wants, Answer::Poll(Some(Poll { after: 0, limit: 3 }))),
    (Call::Offer(2000, 700, false), YES),
    (Call::Wants, Answer::Poll(None)),
    (Call::Send, Answer::Sent(Sent::Event(1, 1, 700))),
    (
        Call::Wants,
        Answer::Poll(Some(Poll {
            after: 2000,
            limit: 2,
        })),
    ),
    (Call::Offer(2001, 700, false), YES),
    (Call::Send, Answer::Sent(Sent::Event(1, 2, 700))),
    (Call::Offer(2002, 700, false), YES),
    (Call::Send, Answer::Sent(Sent::Event(1, 3, 700))),
    (Call::Wants, Answer::Poll(None)),
    (Call::Confirm(1, 3), YES),
    (Call::Confirm(1, 2), YES),
    (Call::Confirm(1, 3), NO),
    (Call::Confirmed, Answer::EventTimestamp(0)),
    (
        Call::Wants,
        Answer::Poll(Some(Poll {
            after: 2002,
            limit: 2,
        })),
    ),
    (Call::OfferNone(true), YES),
    (Call::Send, NOTHING),
    (Call::Confirm(1, 1), YES),
    (Call::Confirmed, Answer::EventTimestamp(2002)),
    (Call::Send, Answer::Sent(Sent::EndMark(1, 4))),
    (Call::Confirm(1, 4), YES),
    (Call::Done, YES),
];

#[test]
fn a_course_of_three_events_at_a_time(rt: HostRuntime) -> Result<(), Fail> {
    let mut store = MemoryStore::new();
    let mut session = Session::start(rt.alloc(), &mut store, 3, None)?;
    for (place, (call, answer)) in WIDE.iter().enumerate() {
        let given = ask(rt.alloc(), &mut session, &mut store, *call)?;
        assert_eq!(rt; given, *answer, "call {place}");
    }
    Ok(())
}

#[test]
fn a_session_of_a_thousand_events(rt: HostRuntime) -> Result<(), Fail> {
    let mut store = MemoryStore::new();
    let mut session = Session::start(rt.alloc(), &mut store, 1, None)?;
    assert_eq!(rt; send(&mut session, rt.alloc())?, Sent::Connect(1));
    for tag in 1..=1_000 {
        for (call, answer) in [
            (Call::Offer(tag, 700, false), YES),
            (Call::Send, Answer::Sent(Sent::Event(1, tag, 700))),
            (Call::Confirm(1, tag), YES),
        ] {
            assert_eq!(rt; ask(rt.alloc(), &mut session, &mut store, call)?, answer);
        }
    }
    let saved = Answer::Holds(Ok(progress(Some((1, 1_000, 0)))));
    assert_eq!(rt;
        ask(rt.alloc(), &mut session, &mut store, Call::Save)?,
        saved
    );
    Ok(())
}

#[test]
fn errors_have_their_numbers_and_names(rt: HostRuntime) {
    for (error, number, name) in [
        (StartError::Store(StoreError::BadRecord), 1, "store"),
        (StartError::SessionsExhausted, 2, "sessions_exhausted"),
        (StartError::OutOfMemory, 3, "out_of_memory"),
        (StartError::StartNotAllowed, 4, "start_not_allowed"),
    ] {
        assert_eq!(rt; error.number(), number);
        assert_eq!(rt; error.name(), name);
    }
}
