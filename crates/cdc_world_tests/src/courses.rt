//! Whole courses of steps: each step finds memory, and the world in the end is as expected.

use crate::played::{Course, Seen, outcome};
use cdc_progress::MemoryStore;
use cdc_world::{EventTimestamp, Played, Step, StepError};
use std::alloc::{AllocError, Global};
use std::process::Abort;
use std::test::Fail;

/// Publish, confirm, save, close, and take all of two events.
pub const WHOLE: [Step; 23] = [
    Step::Start,
    Step::Publish,
    Step::Arrive(1),
    Step::Poll,
    Step::Publish,
    Step::Arrive(2),
    Step::Answer(1),
    Step::Poll,
    Step::Publish,
    Step::Arrive(3),
    Step::Answer(2),
    Step::Save,
    Step::CloseLedger,
    Step::Poll,
    Step::Publish,
    Step::Arrive(4),
    Step::Answer(3),
    Step::Send(1),
    Step::Send(1),
    Step::Send(1),
    Step::Take(1),
    Step::Take(1),
    Step::Take(1),
];

// An empty ledger that is closed at once.
const EMPTY: [Step; 10] = [
    Step::CloseLedger,
    Step::Start,
    Step::Publish,
    Step::Arrive(1),
    Step::Poll,
    Step::Publish,
    Step::Arrive(2),
    Step::Answer(1),
    Step::Send(1),
    Step::Take(1),
];

// The steps of a run with each fault: a crash between a publish and its confirm, a late packet and confirm of the
// session that crashed, deliveries that are rewound and broken off, a duplicate acknowledgement, and a close.
pub const FAULTY: [Step; 28] = [
    Step::Start,
    Step::Publish,
    Step::Arrive(1),
    Step::Poll,
    Step::Publish,
    Step::Arrive(2),
    Step::Crash,
    Step::Start,
    Step::Publish,
    Step::Arrive(3),
    Step::Arrive(2),
    Step::Answer(1),
    Step::Poll,
    Step::Publish,
    Step::Arrive(4),
    Step::Answer(2),
    Step::Save,
    Step::Send(1),
    Step::Rewind(1),
    Step::Send(1),
    Step::Take(1),
    Step::Ack(1, 1),
    Step::Break(1),
    Step::Ack(1, 1),
    Step::Send(1),
    Step::Close(1),
    Step::Take(1),
    Step::Ack(1, 3),
];

// Steps each of which a world refuses in which nothing has happened.
const IDLE: [Step; 5] = [
    Step::Crash,
    Step::Arrive(u64::MAX),
    Step::Take(0),
    Step::Rewind(2),
    Step::Ack(1, 1),
];

// What is seen of a world in which nothing has happened.
const NOTHING: Seen = Seen {
    saved: None,
    events: 0,
    packets: 0,
    confirms: 0,
    flight: 0,
    acks: 0,
    applied: 0,
    last: 0,
    ended: false,
};

// Transfers of these amounts and then these steps, over a store that never fails, come so far and leave this.
fn leaves(
    rt: &impl Abort,
    alloc: Global,
    amounts: &[u128],
    steps: &[Step],
    (done, refusal): (usize, Option<StepError>),
    left: Seen,
) -> Result<(), Fail> {
    let course = Course {
        amounts,
        steps,
        tries: 0,
    };
    let came = outcome(alloc, MemoryStore::new(), course)?;
    assert_eq!(rt; came, (Played { done, refusal }, Some(left)));
    Ok(())
}

// What is left of a whole course up to its last three steps, which take what was sent.
const SENT: Seen = Seen {
    saved: Some((1, 2001)),
    events: 2,
    packets: 4,
    confirms: 3,
    flight: 3,
    ..NOTHING
};

#[test]
fn a_whole_course(rt: HostRuntime) -> Result<(), Fail> {
    let rows = [
        (20, SENT),
        (
            21,
            Seen {
                flight: 2,
                acks: 1,
                applied: 1,
                last: 2000,
                ..SENT
            },
        ),
        (
            23,
            Seen {
                flight: 0,
                acks: 3,
                applied: 2,
                last: 2001,
                ended: true,
                ..SENT
            },
        ),
    ];
    for (done, left) in rows {
        leaves(&rt, rt.alloc(), &[5, 7], &WHOLE[..done], (done, None), left)?;
    }
    Ok(())
}

#[test]
fn an_empty_ledger(rt: HostRuntime) -> Result<(), Fail> {
    let open = Seen {
        saved: Some((1, 0)),
        packets: 1,
        ..NOTHING
    };
    let closed = Seen {
        packets: 2,
        confirms: 1,
        acks: 1,
        ended: true,
        ..open
    };
    let nothing_to_send = (4, Some(StepError::NotEnabled));
    let steps = &EMPTY[..];
    leaves(&rt, rt.alloc(), &[], steps, (10, None), closed)?;
    leaves(&rt, rt.alloc(), &[], &steps[1..6], nothing_to_send, open)
}

#[test]
fn a_course_with_faults(rt: HostRuntime) -> Result<(), Fail> {
    let left = Seen {
        saved: Some((2, 2000)),
        events: 2,
        packets: 4,
        confirms: 2,
        acks: 2,
        applied: 1,
        last: 2000,
        ..NOTHING
    };
    let no_third = (27, Some(StepError::NotEnabled));
    leaves(&rt, rt.alloc(), &[5, 7], &FAULTY, no_third, left)
}

#[test]
fn steps_with_nothing_to_act_on(rt: HostRuntime) -> Result<(), Fail> {
    let steps = &IDLE[..];
    let refused = (0, Some(StepError::NotEnabled));
    for place in 0..steps.len() {
        leaves(&rt, rt.alloc(), &[], &steps[place..], refused, NOTHING)?;
    }
    Ok(())
}

// The steps that publish and deliver exactly a thousand events, one after another.
fn long_course(alloc: Global) -> Result<Vec<Step>, AllocError> {
    let mut steps = Vec::with_capacity(alloc, 6_004)?;
    steps.push(Step::Start)?;
    steps.push(Step::Publish)?;
    steps.push(Step::Arrive(1))?;
    for event in 1..=1_000u64 {
        steps.push(Step::Poll)?;
        steps.push(Step::Publish)?;
        steps.push(Step::Arrive(event + 1))?;
        steps.push(Step::Answer(event))?;
        steps.push(Step::Send(1))?;
        steps.push(Step::Take(1))?;
    }
    steps.push(Step::Save)?;
    Ok(steps)
}

#[test]
fn a_thousand_events(rt: HostRuntime) -> Result<(), Fail> {
    let left = Seen {
        saved: Some((1, 2999)),
        events: 1_000,
        packets: 1_001,
        confirms: 1_000,
        acks: 1_000,
        applied: 1_000,
        last: 2999,
        ..NOTHING
    };
    let steps = long_course(rt.alloc())?;
    leaves(
        &rt,
        rt.alloc(),
        &[1; 1_000],
        steps.as_slice(),
        (6_004, None),
        left,
    )
}

// The steps of a connector that starts after this timestamp, with the events that follow it.
fn late_course(alloc: Global, at: EventTimestamp) -> Result<Vec<Step>, AllocError> {
    let mut steps = Vec::with_capacity(alloc, 8)?;
    steps.push(Step::StartAt(at))?;
    steps.push(Step::Publish)?;
    steps.push(Step::Arrive(1))?;
    steps.push(Step::Poll)?;
    steps.push(Step::Publish)?;
    steps.push(Step::Arrive(2))?;
    steps.push(Step::Send(1))?;
    steps.push(Step::Take(1))?;
    Ok(steps)
}

#[test]
fn a_start_after_the_first_of_two_events(rt: HostRuntime) -> Result<(), Fail> {
    let left = Seen {
        saved: Some((1, 2000)),
        events: 2,
        packets: 2,
        confirms: 1,
        acks: 1,
        applied: 1,
        last: 2001,
        ..NOTHING
    };
    let at = EventTimestamp::new(2000).expect(&rt, "a timestamp");
    let steps = late_course(rt.alloc(), at)?;
    leaves(&rt, rt.alloc(), &[5, 7], steps.as_slice(), (8, None), left)
}

#[test]
fn a_second_late_start_is_not_allowed(rt: HostRuntime) -> Result<(), Fail> {
    let left = Seen {
        saved: Some((1, 2000)),
        events: 2,
        ..NOTHING
    };
    let at = EventTimestamp::new(2000).expect(&rt, "a timestamp");
    let again = EventTimestamp::new(5).expect(&rt, "a timestamp");
    let steps = [Step::StartAt(at), Step::Crash, Step::StartAt(again)];
    let refused = (2, Some(StepError::StartNotAllowed));
    leaves(&rt, rt.alloc(), &[5, 7], &steps, refused, left)
}
