//! The JSON line of what comes of a line.

ghost use Rattle.std.specs.Prelude.{◌≡◌, ◌++◌, IfOk, OnOk};
ghost use Rattle.cdc_expect.specs.Expect as spec;
ghost use Rattle.cdc_expect.specs.Lines.{kept_by};

use crate::lines::{Kept, push_bad_line, push_entry, push_result};
use cdc_follow::{Stop, Taken, Turn};
use cdc_subscriber::Subscriber;
use std::alloc::{AllocError, Global};

/// The JSON line of what came of the line of this number, after which the subscriber is as it is; no text if there was
/// no line.
pub(crate) fn turn_text(
    alloc: Global,
    number: u64,
    turn: &Turn,
    subscriber: &Subscriber,
) -> Result<Vec<u8>, AllocError>
    ensures { IfOk result (λ text. text.items ≡ spec.turn_text number turn.now subscriber.now) }
{
    let mut text = Vec::new(alloc);
    push_turn(&mut text, number, turn, kept_of(subscriber))?;
    Ok(text)
}

/// What is shown of a subscriber.
fn kept_of(subscriber: &Subscriber) -> Kept
    ensures { result ≡ kept_by subscriber.now }
{
    Kept {
        applied: subscriber.applied_count(),
        last: subscriber.last(),
    }
}

/// Adds the line of what came of the line of this number.
fn push_turn(text: &mut Vec<u8>, number: u64, turn: &Turn, kept: Kept) -> Result<(), AllocError>
    ensures { OnOk result (text.new.items ≡ text.old.items ++ spec.kept_turn_text number turn.now kept) }
{
    match turn {
        Turn::GoesOn(Taken::Nothing) => push_result(text, number, "nothing", kept),
        Turn::GoesOn(Taken::Entry(entry, following)) => {
            push_entry(text, number, entry, *following, kept)
        }
        Turn::Stops(stop) => push_stop(text, *stop, kept),
    }
}

/// Adds the line of why following stopped; none if it stopped at the end.
fn push_stop(text: &mut Vec<u8>, stop: Stop, kept: Kept) -> Result<(), AllocError>
    ensures { OnOk result (text.new.items ≡ text.old.items ++ spec.stop_text stop kept) }
{
    match stop {
        Stop::AtEnd => Ok(()),
        Stop::Gap(line, _) => push_result(text, line, "gap", kept),
        Stop::AfterEnd(line, _) => push_result(text, line, "after_end", kept),
        Stop::BadLine(line, error) => push_bad_line(text, line, error, kept),
    }
}
