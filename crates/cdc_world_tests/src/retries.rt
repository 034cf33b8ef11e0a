//! Steps that a store's failure refuses, and that are tried again.

use crate::courses::WHOLE;
use crate::played::{Course, outcome};
use cdc_progress::{MemoryStore, StoreError};
use cdc_world::{Step, StepError};
use std::alloc::Global;
use std::process::Abort;
use std::test::Fail;

// A start twice; and one session after another.
const START: [Step; 2] = [Step::Start, Step::Start];

const AGAIN: [Step; 4] = [Step::Start, Step::Save, Step::Crash, Step::Start];

// A step that the store refused, at a write or at a read.
const AT_WRITE: Option<StepError> = Some(StepError::Store(StoreError::WriteFault));

const AT_READ: Option<StepError> = Some(StepError::Store(StoreError::ReadFault));

// A store of which one call fails: which one, and whether a save that fails holds the new record. How many more tries
// a step has. Then how far the steps come, why no further, and what the store holds.
type Row = (
    u8,
    bool,
    usize,
    usize,
    Option<StepError>,
    Option<(u64, u64)>,
);

// Two events and these steps go as each of these rows has it.
fn go(rt: &impl Abort, alloc: Global, steps: &[Step], rows: &[Row]) -> Result<(), Fail> {
    for (fails_at, keeps_new, tries, done, refusal, held) in rows {
        let store = MemoryStore::with_faults(None, u64::from(*fails_at), *keeps_new);
        let course = Course {
            amounts: &[5, 7],
            steps,
            tries: *tries,
        };
        let (played, seen) = outcome(alloc, store, course)?;
        assert_eq!(rt; (played.done, played.refusal), (*done, *refusal));
        assert_eq!(rt; seen.map(|seen| seen.saved), Some(*held));
    }
    Ok(())
}

// A start is a load and a save. Its save fails, for good or until a further try.
#[test]
fn a_start_whose_save_fails_is_tried_again(rt: HostRuntime) -> Result<(), Fail> {
    let rows = [
        (2, true, 0, 0, AT_WRITE, Some((1, 0))),
        (2, true, 1, 1, None, Some((2, 0))),
        (2, false, 0, 0, AT_WRITE, None),
        (2, false, 1, 1, None, Some((1, 0))),
    ];
    go(&rt, rt.alloc(), &START[..1], &rows)
}

// A save of the session that fails leaves it running, and may be made again.
#[test]
fn a_save_that_fails_leaves_the_session(rt: HostRuntime) -> Result<(), Fail> {
    let rows = [
        (3, true, 0, 11, AT_WRITE, Some((1, 2001))),
        (3, false, 0, 11, AT_WRITE, Some((1, 0))),
        (3, false, 1, 12, None, Some((1, 2001))),
    ];
    go(&rt, rt.alloc(), &WHOLE[..12], &rows)
}

// Each session loads once: the fourth call is the second session's load, and the one before it a save.
#[test]
fn a_session_loads_its_store_once(rt: HostRuntime) -> Result<(), Fail> {
    let rows = [
        (1, false, 0, 0, AT_READ, None),
        (3, false, 0, 1, AT_WRITE, Some((1, 0))),
        (4, false, 0, 3, AT_READ, Some((1, 0))),
        (4, false, 1, 4, None, Some((2, 0))),
        (5, false, 0, 3, AT_WRITE, Some((1, 0))),
    ];
    go(&rt, rt.alloc(), &AGAIN, &rows)
}

// A step that is refused for another reason is refused at once, however often it may be tried.
#[test]
fn a_step_with_nothing_to_act_on_is_not_tried_again(rt: HostRuntime) -> Result<(), Fail> {
    let refused = Some(StepError::NotEnabled);
    let rows = [(0, false, usize::MAX, 1, refused, Some((1, 0)))];
    go(&rt, rt.alloc(), &START, &rows)
}
