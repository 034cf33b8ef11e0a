//! Replies find memory.

use cdc_ledger::Ledger;
use cdc_traffic::{Poll, Reply, Request};
use cdc_types::{Batch, BatchResults};
use std::alloc::Global;
use std::process::Abort;

// Whether a copy of this reply to a pulse reports that nothing expired.
fn copy_is_of_none(rt: &impl Abort, alloc: Global, reply: &Reply) -> bool {
    let copy = reply.try_copy(alloc).expect(rt, "memory");
    matches!(&copy.answer, Ok(BatchResults::Pulsed(0)))
}

// Whether a pulse's reply, copied, reports that nothing expired.
fn pulse_is_answered(rt: &impl Abort, alloc: Global, ledger: &mut Ledger) -> bool {
    let request = Request {
        client: 1,
        number: 1,
        batch: Batch::Pulse { now: 5 },
    };
    let reply = request.answer(alloc, ledger).expect(rt, "memory");
    copy_is_of_none(rt, alloc, &reply)
}

// Whether a poll of a ledger without events reads none, and reports that some may follow.
fn nothing_is_read(rt: &impl Abort, alloc: Global, ledger: &Ledger) -> bool {
    let poll = Poll {
        session: 1,
        number: 1,
        after: 0,
        limit: 1,
    };
    let read = poll.read(alloc, ledger).expect(rt, "memory");
    read.events.as_slice().is_empty() && !read.complete
}

#[test]
fn a_request_and_a_poll_are_answered(rt: HostRuntime) {
    let mut ledger = Ledger::new(rt.alloc());
    assert!(rt; pulse_is_answered(&rt, rt.alloc(), &mut ledger));
    assert!(rt; nothing_is_read(&rt, rt.alloc(), &ledger));
}
