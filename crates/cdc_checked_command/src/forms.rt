//! The forms in which a command prints what checked following comes to.

ghost use Rattle.std.specs.Prelude.{◌≡◌, ◌++◌, ℕ, List, IfOk, OnOk};
ghost use Rattle.cdc_follow.specs.declared.counts.Counts.{Counts as LineCounts};
ghost use Rattle.cdc_checked_follow.specs.Standing.{CheckedFollowerState};
ghost use Rattle.cdc_checked_follow.specs.declared.streams.CheckStop.{CheckStop as Stops};
ghost use Rattle.cdc_checked_state.specs.States.{book_rows, rows_text};
ghost use Rattle.cdc_checked_command.specs.Texts.{follower_line, stop_line};

use cdc_audit::{Refusal, push_refusal};
use cdc_checked_follow::{CheckStop, CheckedFollower};
use cdc_checked_state::push_book;
use cdc_codec::{write_flagged, write_named, write_text};
use cdc_follow::Counts;
use cdc_output::{FaultForm, Text, push, push_named};
use cdc_streams::{StreamForm, push_bad_line};
use std::alloc::{AllocError, Global};
use std::io;

/// A form in which a command prints what checked following comes to.
pub trait CheckForm: FaultForm {
    /// What is printed of a save: of the counts of the lines so far, and of the greatest timestamp of an applied event.
    ghost prints_save: { LineCounts → ℕ → List ℕ };

    /// What is printed at the end: of the counts of the lines, of a follower, and of why following stopped.
    ghost prints_end: { LineCounts → CheckedFollowerState → Stops → List ℕ };

    /// The line of a save. `timestamp`: the greatest one of an applied event, in nanoseconds.
    fn save(&self, alloc: Global, counts: Counts, timestamp: u64) -> Result<Vec<u8>, AllocError>
        ensures { IfOk result (λ text. text.items ≡ prints_save counts timestamp) };

    /// The lines of a follower at the end, of why following stopped, and of the counts.
    fn end(
        &self,
        alloc: Global,
        counts: Counts,
        follower: &CheckedFollower,
        stop: CheckStop,
    ) -> Result<Vec<u8>, AllocError>
        ensures { IfOk result (λ text. text.items ≡ prints_end counts follower.now stop) };
}

impl CheckForm for Text {
    ghost use Rattle.cdc_streams.specs.Lines.{saved_text};
    ghost use Rattle.cdc_checked_command.specs.Texts.{end_text};

    // (standard error reports the counts)
    ghost prints_save = { λ _. saved_text };

    ghost prints_end = { λ _. end_text };

    fn save(&self, alloc: Global, _counts: Counts, timestamp: u64) -> Result<Vec<u8>, AllocError> {
        self.saved(alloc, timestamp)
    }

    fn end(
        &self,
        alloc: Global,
        _counts: Counts,
        follower: &CheckedFollower,
        stop: CheckStop,
    ) -> Result<Vec<u8>, AllocError> {
        let mut text = Vec::new(alloc);
        push_follower(&mut text, follower)?;
        push_stop(&mut text, stop)?;
        Ok(text)
    }
}

/// Adds the line of how far a follower is, and a line for each account of its book.
fn push_follower(text: &mut Vec<u8>, follower: &CheckedFollower) -> Result<(), AllocError>
    ensures { OnOk result (text.new.items
        ≡ text.old.items ++ (follower_line follower.now ++ rows_text (book_rows follower.now.book))) }
{
    // (a write to a vector fails only if memory runs out)
    write_follower(text, follower).or(Err(AllocError))
}

/// The same.
fn write_follower(text: &mut Vec<u8>, follower: &CheckedFollower) -> io::Result<()>
    ensures { OnOk result (text.new.items
        ≡ text.old.items ++ (follower_line follower.now ++ rows_text (book_rows follower.now.book))) }
{
    write_progress(text, follower)?;
    push_book(text, follower.book())
}

/// Adds the line of how far a follower is.
fn write_progress(text: &mut Vec<u8>, follower: &CheckedFollower) -> io::Result<()>
    ensures { OnOk result (text.new.items ≡ text.old.items ++ follower_line follower.now) }
{
    write_named(text, "subscriber", 1u64)?;
    write_named(text, " applied", follower.applied_count())?;
    write_named(text, " last", follower.last())?;
    write_flagged(text, " ended", follower.ended())?;
    write_flagged(text, " closed", false)?;
    write_text(text, "\n")
}

/// Adds the line of why following stopped; none if it stopped at the end.
pub(crate) fn push_stop(text: &mut Vec<u8>, stop: CheckStop) -> Result<(), AllocError>
    ensures { OnOk result (text.new.items ≡ text.old.items ++ stop_line stop) }
{
    match stop {
        CheckStop::AtEnd => Ok(()),
        CheckStop::Gap(line, why) => push_gap(text, line, why),
        CheckStop::BadLine(line, error) => push_bad_line(text, line, error),
    }
}

/// Adds the line of an event that is refused, on the line of this number.
fn push_gap(text: &mut Vec<u8>, line: u64, why: Refusal) -> Result<(), AllocError>
    ensures { OnOk result (text.new.items ≡ text.old.items ++ stop_line (Stops.Gap line why)) }
{
    push_named(text, "gap: line ", line)?;
    push(text, ": ")?;
    push_refusal(&why, text)?;
    push(text, "\n")?;
    Ok(())
}
