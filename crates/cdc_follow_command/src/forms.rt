//! The forms in which `follow` prints what it reports.

ghost use Rattle.std.specs.Prelude.{◌≡◌, ◌++◌, ℕ, List, IfOk, OnOk};
ghost use Rattle.cdc_follow.specs.declared.counts.Counts.{Counts as LineCounts};
ghost use Rattle.cdc_follow.specs.Following.{FollowState};
ghost use Rattle.cdc_follow.specs.declared.streams.Stop.{Stop as Stops};
ghost use Rattle.cdc_follow_command.specs.Texts.{after_end_line, stop_line};
ghost use Rattle.cdc_subscriber.specs.Lines.{subscriber_text};

use cdc_follow::{Counts, Entry, Follower, Stop};
use cdc_output::{FaultForm, Text, push, push_named};
use cdc_streams::{StreamForm, push_bad_line};
use cdc_subscriber::Subscriber;
use std::alloc::{AllocError, Global};

/// A form in which `follow` prints what it reports.
pub trait FollowForm: FaultForm {
    /// What is printed of a save: of the counts of the lines so far, and of the timestamp of the last event seen.
    ghost prints_save: { LineCounts → ℕ → List ℕ };

    /// What is printed at the end: of the counts of the lines, of a follower, and of why following stopped.
    ghost prints_end: { LineCounts → FollowState → Stops → List ℕ };

    /// The line of a save. `timestamp`: that of the last event seen, in nanoseconds.
    fn save(&self, alloc: Global, counts: Counts, timestamp: u64) -> Result<Vec<u8>, AllocError>
        ensures { IfOk result (λ text. text.items ≡ prints_save counts timestamp) };

    /// The lines of a follower at the end, of why following stopped, and of the counts.
    fn end(
        &self,
        alloc: Global,
        counts: Counts,
        follower: &Follower,
        stop: Stop,
    ) -> Result<Vec<u8>, AllocError>
        ensures { IfOk result (λ text. text.items ≡ prints_end counts follower.now stop) };
}

impl FollowForm for Text {
    ghost use Rattle.cdc_streams.specs.Lines.{saved_text};
    ghost use Rattle.cdc_follow_command.specs.Texts.{end_text};

    // (standard error reports the counts)
    ghost prints_save = { λ _. saved_text };

    ghost prints_end = { λ _. end_text };

    fn save(&self, alloc: Global, _counts: Counts, timestamp: u64) -> Result<Vec<u8>, AllocError> {
        self.saved(alloc, timestamp)
    }

    fn end(
        &self,
        alloc: Global,
        _counts: Counts,
        follower: &Follower,
        stop: Stop,
    ) -> Result<Vec<u8>, AllocError> {
        let mut text = Vec::new(alloc);
        push_subscriber(&mut text, follower.subscriber())?;
        push_stop(&mut text, follower.seen(), stop)?;
        Ok(text)
    }
}

/// Adds the lines of the subscriber, which has the number 1.
fn push_subscriber(text: &mut Vec<u8>, subscriber: &Subscriber) -> Result<(), AllocError>
    ensures { OnOk result (text.new.items ≡ text.old.items ++ subscriber_text 1 subscriber.now) }
{
    // (a write to a vector fails only if memory runs out)
    subscriber.print(text, 1).or(Err(AllocError))
}

/// Adds the line of why following stopped; none if it stopped at the end.
pub(crate) fn push_stop(text: &mut Vec<u8>, seen: u64, stop: Stop) -> Result<(), AllocError>
    ensures { OnOk result (text.new.items ≡ text.old.items ++ stop_line seen stop) }
{
    match stop {
        Stop::AtEnd => Ok(()),
        Stop::Gap(line, entry) => push_gap(text, seen, line, entry),
        Stop::AfterEnd(line, _) => push_after_end(text, seen, line),
        Stop::BadLine(line, error) => push_bad_line(text, line, error),
    }
}

/// Adds the line of a gap before the entry of the line of this number.
fn push_gap(text: &mut Vec<u8>, seen: u64, line: u64, entry: Entry) -> Result<(), AllocError>
    ensures { OnOk result (text.new.items
        ≡ text.old.items ++ stop_line seen (Stops.Gap line entry)) }
{
    push_named(text, "gap: line ", line)?;
    push_named(text, ": after ", entry.previous.unwrap_or(0))?;
    push_named(text, ", expected after ", seen)?;
    push(text, "\n")?;
    Ok(())
}

/// Adds the line of an entry that contradicts the end, which came after the event of this timestamp.
fn push_after_end(text: &mut Vec<u8>, seen: u64, line: u64) -> Result<(), AllocError>
    ensures { OnOk result (text.new.items ≡ text.old.items ++ after_end_line seen line) }
{
    push_named(text, "after_end: line ", line)?;
    push_named(text, ": ended after ", seen)?;
    push(text, "\n")?;
    Ok(())
}
