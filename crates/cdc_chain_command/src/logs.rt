//! The log of a chain's states: how it is written, and how it is read back.

ghost use Rattle.std.specs.Prelude.{◌≡◌, ℕ, List, IfOk, IfSome, IsSomeAnd};
ghost use Rattle.std.specs.List.{AllByRecursion};
ghost use Rattle.cdc_frames.specs.Frames.{frame};
ghost use Rattle.cdc_frames.specs.Records.{AreRecords, AreReplayed, IsReplayed};
ghost use Rattle.cdc_chain_command.specs.Logs.{Fits, IsLogText, IsRead, LogsCanBeCut, Saved, last_saved, log_name};
ghost use Rattle.cdc_chain_command.specs.Logs.{saved_text};
ghost use Rattle.cdc_chain_command.specs.Private.Reads.{IsGood, saved_of};

use crate::reading::{SavedState, read_state};
use cdc_frames::{read_frame, write_frame};
use std::alloc::{AllocError, Global};

/// The text of the frame of this number with this text of a state: 0 is that of the first one of a log. The one error
/// is that memory ran out.
pub(crate) fn frame_text(alloc: Global, number: u64, state: &[u8]) -> Result<Vec<u8>, AllocError>
    ensures { IfOk result (λ text. text.items ≡ frame log_name number state.now) }
{
    let mut text = Vec::new(alloc);
    // (a write to a vector fails only if memory runs out)
    match write_frame(&mut text, "chain-state", number, state) {
        Ok(()) => Ok(text),
        Err(_) => Err(AllocError),
    }
}

/// Reads the states after the first one of a log, each of so many queues. `None`: a frame with something else is
/// followed by other bytes.
fn read_later(
    alloc: Global,
    text: &[u8],
    count: usize,
    first: SavedState,
) -> Result<Option<SavedState>, AllocError>
    requires { IsGood count first }
    ensures good { IfOk result (λ read. IfSome read (IsGood count)) }
    ensures exact { IfOk result (λ read. IfSome read (λ last. (records : ℕ) × (torn : ℕ) × IsReplayed log_name
        (Fits count) saved_text (λ before next. next) text.now (saved_of first) (saved_of last) records torn)) }
    ensures all { (later : List Saved) (torn : List ℕ) → AllByRecursion (Fits count) later
        → AreRecords log_name saved_text 1 text.now later torn
        → IfOk result (λ read. IsSomeAnd read (λ last. saved_of last ≡ last_saved (saved_of first) later)) }
{
    let mut rest = text;
    let mut records = 0u64;
    let mut last = first;
    'records: loop {
        let Some(found) = read_frame(alloc, rest, "chain-state", records + 1)? else {
            return Ok(Some(last));
        };
        let Some(next) = read_state(alloc, found.content, count)? else {
            let left = found.rest.len();
            if left > 0 {
                return Ok(None);
            }
            return Ok(Some(last));
        };
        last = next;
        rest = found.rest;
        records += 1;
    }
}

/// Reads the text of a log of states with so many queues, and returns the last one. What follows the last whole frame
/// is ignored, and so is a last frame that contains no state, such as one of which a crash kept only the two lines.
/// `None`: the text begins with no frame of a state, or such a frame is followed by other bytes. The one error is that
/// memory ran out.
pub(crate) fn read_log(
    alloc: Global,
    text: &[u8],
    count: usize,
) -> Result<Option<SavedState>, AllocError>
    ensures exact { IfOk result (λ read. IfSome read (λ last. IsRead count text.now (saved_of last))) }
    ensures good { IfOk result (λ read. IfSome read (IsGood count)) }
    ensures all { (first : Saved) (later : List Saved) (torn : List ℕ) → Fits count first
        → AllByRecursion (Fits count) later → IsLogText text.now first later torn
        → IfOk result (λ read. IsSomeAnd read (λ last. saved_of last ≡ last_saved first later)) }
{
    let Some(found) = read_frame(alloc, text, "chain-state", 0)? else {
        return Ok(None);
    };
    let Some(first) = read_state(alloc, found.content, count)? else {
        return Ok(None);
    };
    read_later(alloc, found.rest, count, first)
}

/// Does nothing. A log that is cut anywhere after its first state is the log of the states that were saved whole before
/// the cut.
pub fn logs_can_be_cut()
    ensures { LogsCanBeCut }
{}
