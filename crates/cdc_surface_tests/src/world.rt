//! The public calls of the world, with all steps.

ghost use Rattle.std.specs.Prelude.{◌≡◌, length};

use crate::values::{accounts, all, transfers};
use cdc_ledger::{BatchError, Ledger};
use cdc_progress::{MemoryStore, Progress, StoreError};
use cdc_subscriber::Subscriber;
use cdc_types::EventTimestamp;
use cdc_world::{Did, Played, Step, StepError, World};
use std::alloc::{AllocError, Global};
use std::process::Abort;

const ERRORS: [StepError; 6] = [
    StepError::NotEnabled,
    StepError::Refused(BatchError::LedgerClosed),
    StepError::Store(StoreError::ReadFault),
    StepError::SessionsExhausted,
    StepError::OutOfMemory,
    StepError::StartNotAllowed,
];

fn error(error: StepError) -> (u8, &'static str) {
    match error {
        StepError::NotEnabled => (1, "not_enabled"),
        StepError::Refused(_) => (2, "refused"),
        StepError::Store(_) => (3, "store"),
        StepError::SessionsExhausted => (4, "sessions_exhausted"),
        StepError::OutOfMemory => (5, "out_of_memory"),
        StepError::StartNotAllowed => (6, "start_not_allowed"),
    }
}

#[test]
fn errors_of_steps_have_numbers_and_names(rt: HostRuntime) {
    for fault in ERRORS {
        let number: u8 = fault.number();
        let name: &'static str = fault.name();
        assert_eq!(rt; (number, name), error(fault));
    }
}

// A world of one subscriber, which takes every event.
fn world(rt: &impl Abort, alloc: Global) -> World<MemoryStore>
    ensures { length result.actors.subscriptions ≡ 1 }
{
    let mut bindings = Vec::with_capacity(alloc, 1).expect(rt, "memory");
    bindings.push_reserved(all(rt, alloc));
    let world: Result<World<MemoryStore>, AllocError> = World::new(
        alloc,
        bindings,
        1,
        MemoryStore::new(),
    );
    world.expect(rt, "memory")
}

fn word_of(step: &Step) -> &'static str {
    match step {
        Step::Submit(_) => "submit",
        Step::CloseLedger => "close_ledger",
        Step::Start => "start",
        Step::StartAt(_) => "start at",
        Step::Crash => "crash",
        Step::Poll => "poll",
        Step::Publish => "publish",
        Step::Arrive(_) => "arrive",
        Step::Answer(_) => "answer",
        Step::Save => "save",
        Step::Send(_) => "send",
        Step::Rewind(_) => "rewind",
        Step::Break(_) => "break",
        Step::Take(_) => "take",
        Step::Ack(_, _) => "ack",
        Step::Close(_) => "close",
    }
}

fn outcome(did: Result<Did, StepError>) -> &'static str {
    match did {
        Ok(Did::Submitted(_)) => "submitted",
        Ok(Did::Arrived(true)) => "arrived",
        Ok(Did::Arrived(false)) => "ignored",
        Ok(Did::Counted(true)) => "counted",
        Ok(Did::Counted(false)) => "not counted",
        Ok(Did::Took(_)) => "took",
        Ok(Did::Done) => "done",
        Err(_) => "refused",
    }
}

#[test]
fn each_step_has_an_outcome(rt: HostRuntime) {
    let mut world = world(&rt, rt.alloc());
    let start = EventTimestamp::new(0).expect(&rt, "a timestamp");
    let accounts = accounts(&rt, rt.alloc());
    let transfers = transfers(&rt, rt.alloc());
    for (step, word, expected) in [
        (Step::Submit(accounts), "submit", "submitted"),
        (Step::Submit(transfers), "submit", "submitted"),
        (Step::CloseLedger, "close_ledger", "done"),
        (Step::StartAt(start), "start at", "done"),
        (Step::Crash, "crash", "done"),
        (Step::Start, "start", "done"),
        (Step::Publish, "publish", "done"),
        (Step::Arrive(1), "arrive", "arrived"),
        (Step::Poll, "poll", "done"),
        (Step::Publish, "publish", "done"),
        (Step::Arrive(2), "arrive", "arrived"),
        (Step::Answer(1), "answer", "counted"),
        (Step::Save, "save", "done"),
        (Step::Send(1), "send", "done"),
        (Step::Rewind(1), "rewind", "done"),
        (Step::Break(1), "break", "done"),
        (Step::Send(1), "send", "done"),
        (Step::Take(1), "take", "took"),
        (Step::Ack(1, 1), "ack", "counted"),
        (Step::Close(1), "close", "done"),
    ] {
        assert_eq!(rt; word_of(&step), word);
        let did: Result<Did, StepError> = world.step(rt.alloc(), &step);
        assert_eq!(rt; outcome(did), expected);
    }
}

const STEPS: [Step; 3] = [Step::Start, Step::Publish, Step::Poll];

#[test]
fn steps_are_played(rt: HostRuntime) {
    let mut world = world(&rt, rt.alloc());
    let played: Played = world.play(rt.alloc(), &STEPS);
    let Played { done, refusal } = played;
    let (done, refusal): (usize, Option<StepError>) = (done, refusal);
    assert_eq!(rt; (done, refusal), (3, None));
    let played: Played = world.play_past(rt.alloc(), &[Step::Start], 1);
    assert_eq!(rt;
        (played.done, played.refusal),
        (0, Some(StepError::NotEnabled))
    );
}

#[test]
fn a_world_is_read(rt: HostRuntime) {
    let mut world = world(&rt, rt.alloc());
    let ledger: &Ledger = world.ledger();
    let subscriber: &Subscriber = world.subscriber(1);
    assert_eq!(rt; (ledger.last(), subscriber.last()), (0, 0));
    let (packets, confirms): (usize, usize) = (world.packets(), world.confirms());
    let (flight, acks): (usize, usize) = (world.flight(1), world.acks(1));
    assert_eq!(rt; (packets, confirms, flight, acks), (0, 0, 0, 0));
    let progress: Result<Option<Progress>, StoreError> = world.progress();
    assert_eq!(rt; progress, Ok(None));
}
