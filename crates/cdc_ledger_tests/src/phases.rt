//! Two-phase transfers, and what limits sums, by the worked examples.

use crate::courses::{MAX, row};
use cdc_types::EventKind;
use std::test::Fail;

// A part is posted, and the rest is released; a void isn't voided again.
#[test]
fn pending_transfers_are_posted_and_voided(rt: HostRuntime) -> Result<(), Fail> {
    let steps = [
        (2000, 2, 10, 0, 100, 0, 0),
        (3000, 4, 11, 10, 40, 0, 0),
        (4000, 2, 20, 0, 50, 0, 0),
        (5000, 8, 21, 20, 0, 0, 0),
        (6000, 8, 22, 20, 0, 0, 27),
    ];
    let events = [
        (2000, EventKind::TwoPhasePending, 100, [100, 0, 0, 0]),
        (3000, EventKind::TwoPhasePosted, 40, [0, 40, 0, 0]),
        (4000, EventKind::TwoPhasePending, 50, [50, 40, 0, 0]),
        (5000, EventKind::TwoPhaseVoided, 50, [0, 40, 0, 0]),
    ];
    row(&rt, rt.alloc(), 0, &steps, &events)
}

// A post at the expiry of its pending transfer is too late; transfers expire in the order of their expiry.
#[test]
fn pending_transfers_come_to_their_end(rt: HostRuntime) -> Result<(), Fail> {
    let steps = [
        (2000, 2, 10, 0, 1, 2, 0),
        (2000, 2, 11, 0, 2, 1, 0),
        (1_000_002_001, 4, 12, 11, MAX, 0, 28),
        (3_000_000_000, 0, 0, 0, 0, 0, 2),
        (9_000_000_000_000_000_000, 2, 13, 0, 1, u32::MAX, 35),
    ];
    let events = [
        (2000, EventKind::TwoPhasePending, 1, [1, 0, 0, 0]),
        (2001, EventKind::TwoPhasePending, 2, [3, 0, 0, 0]),
        (3_000_000_000, EventKind::TwoPhaseExpired, 2, [1, 0, 0, 0]),
        (3_000_000_001, EventKind::TwoPhaseExpired, 1, [0, 0, 0, 0]),
    ];
    row(&rt, rt.alloc(), 0, &steps, &events)
}

// A limit on debits holds from the first transfer on; a transfer that it refused isn't there to be voided.
#[test]
fn sums_keep_to_a_limit(rt: HostRuntime) -> Result<(), Fail> {
    let steps = [(2000, 0, 2, 0, 1, 0, 36), (2000, 8, 3, 2, 0, 0, 18)];
    row(&rt, rt.alloc(), 2, &steps, &[])
}

// Sums fit 128 bits, pending and posted together. A request for an existing transfer, unchanged or with another
// amount, is refused.
#[test]
fn sums_fit(rt: HostRuntime) -> Result<(), Fail> {
    let steps = [
        (2000, 2, 1, 0, MAX, 0, 0),
        (2000, 2, 1, 0, MAX, 0, 13),
        (2000, 2, 1, 0, 1, 0, 12),
        (2000, 0, 2, 0, 1, 0, 33),
    ];
    let events = [(2000, EventKind::TwoPhasePending, MAX, [MAX, 0, 0, 0])];
    row(&rt, rt.alloc(), 0, &steps, &events)
}
