//! The public calls of a connector's session.

use crate::values::EVENT;
use cdc_message::Packet;
use cdc_progress::{MemoryStore, StoreError};
use cdc_publisher::{Poll, Session, StartError};
use cdc_types::EventTimestamp;
use std::alloc::AllocError;

const ERRORS: [StartError; 4] = [
    StartError::Store(StoreError::ReadFault),
    StartError::SessionsExhausted,
    StartError::OutOfMemory,
    StartError::StartNotAllowed,
];

fn error(error: StartError) -> (u8, &'static str) {
    match error {
        StartError::Store(_) => (1, "store"),
        StartError::SessionsExhausted => (2, "sessions_exhausted"),
        StartError::OutOfMemory => (3, "out_of_memory"),
        StartError::StartNotAllowed => (4, "start_not_allowed"),
    }
}

#[test]
fn errors_of_starts_have_numbers_and_names(rt: HostRuntime) {
    for fault in ERRORS {
        let number: u8 = fault.number();
        let name: &'static str = fault.name();
        assert_eq!(rt; (number, name), error(fault));
    }
}

#[test]
fn a_session_has_its_calls(rt: HostRuntime) {
    let mut store = MemoryStore::new();
    let at: Option<EventTimestamp> = EventTimestamp::new(1000);
    let session: Result<Session, StartError> = Session::start(rt.alloc(), &mut store, 2, at);
    let mut session = session.expect(&rt, "a session");
    let (number, base): (u64, u64) = (session.number(), session.base());
    assert_eq!(rt; (number, base), (1, 1000));
    let wanted: Option<Poll> = session.wants();
    let Some(Poll { after, limit }) = wanted else {
        panic!(rt; "nothing is wanted");
    };
    assert_eq!(rt; (after, limit), (1000, 2));
    if after < EVENT.timestamp && limit > 0 {
        session.offer(&[EVENT], true);
    }
    let connect: Result<Option<Packet>, AllocError> = session.next_packet(rt.alloc());
    assert!(rt; matches!(&connect, Ok(Some(Packet::Connect { session: 1 }))));
    let publish = session.next_packet(rt.alloc());
    assert!(rt;
        matches!(
            &publish,
            Ok(Some(Packet::Publish {
                session: 1,
                tag: 1,
                ..
            }))
        )
    );
    let is_taken: bool = session.confirm(1, 1);
    let confirmed: u64 = session.confirmed();
    assert_eq!(rt; (is_taken, confirmed), (true, 2000));
    let saved: Result<(), StoreError> = session.save(&mut store);
    let done: bool = session.done();
    assert_eq!(rt; (saved, done), (Ok(()), false));
}
