//! The log of a state: how it is written, and how it is read back.

ghost use Rattle.std.specs.Prelude.{◌≡◌, ◌↔◌, ℕ, List, IfOk, IfSome, IsSomeAnd, IsTrue, true};
ghost use Rattle.cdc_checked_follow.specs.Checking.{CheckedState, bytes_checked};
ghost use Rattle.cdc_checked_follow.specs.Standing.{CheckedFollowerState, StandsFor};
ghost use Rattle.cdc_checked_state.specs.Logs.{CanBeReplayed, IsLogText, IsRead, checked_all, log_name};
ghost use Rattle.cdc_checked_state.specs.Records.{AreRecords, ChecksRecords};
ghost use Rattle.cdc_checked_state.specs.Saveable.{CanBeSaved};
ghost use Rattle.cdc_checked_state.specs.States.{state_text};
ghost use Rattle.cdc_frames.specs.Frames.{frame};

use crate::printing::push_state;
use crate::saved::{SavedState, read_state};
use cdc_checked_follow::{CheckStop, CheckedFollower, check_stream};
use cdc_frames::{read_frame, write_frame};
use cdc_keys::HashKey;
use cdc_match::Binding;
use std::alloc::{AllocError, Global};

/// The text of the record of this number, from 1 on, with the lines that were followed since the record before it, each
/// with its line feed. The one error is that memory ran out.
pub fn record_text(alloc: Global, number: u64, lines: &[u8]) -> Result<Vec<u8>, AllocError>
    ensures { IfOk result (λ text. text.items ≡ frame log_name number lines.now) }
{
    let mut text = Vec::new(alloc);
    // (a write to a vector fails only if memory runs out)
    match write_frame(&mut text, "checked-book", number, lines) {
        Ok(()) => Ok(text),
        Err(_) => Err(AllocError),
    }
}

/// The text of the base of a log. The one error is that memory ran out.
pub fn base_text(
    alloc: Global,
    binding: &[u8],
    follower: &CheckedFollower,
) -> Result<Vec<u8>, AllocError>
    ensures { IfOk result (λ text. text.items ≡ frame log_name 0 (state_text binding.now follower.now)) }
{
    let mut state = Vec::new(alloc);
    push_state(alloc, &mut state, binding, follower)?;
    record_text(alloc, 0, state.as_slice())
}

/// Follows the lines of a record. `false`: one isn't an entry, and those before it are followed.
fn check_record(
    alloc: Global,
    lines: &[u8],
    binding: &Binding,
    follower: &mut CheckedFollower,
) -> Result<bool, AllocError>
    ensures whole { IfOk result (λ is_whole. (state : CheckedState) → StandsFor binding.now follower.old state
        → IsTrue is_whole ↔ ((bytes_checked true state lines.now).stop ≡ CheckStop.AtEnd)) }
    ensures stands { IfOk result (λ _. (state : CheckedState) → StandsFor binding.now follower.old state
        → StandsFor binding.now follower.new (bytes_checked true state lines.now).state) }
{
    let mut reader = lines;
    // (bytes in memory can be read, so following them fails only if memory runs out)
    match check_stream(alloc, &mut reader, binding, true, follower) {
        Ok(CheckStop::AtEnd) => Ok(true),
        Ok(_) => Ok(false),
        Err(_) => Err(AllocError),
    }
}

/// Follows the records after a base, the last one as far as it has entries. `false`: one that has another line is
/// followed by other bytes.
fn check_records(
    alloc: Global,
    text: &[u8],
    binding: &Binding,
    follower: &mut CheckedFollower,
) -> Result<bool, AllocError>
    ensures exact { IfOk result (λ fine. IsTrue fine
        → ChecksRecords binding.now text.now follower.old follower.new) }
    ensures all { (records : List (List ℕ)) (torn : List ℕ) (state : CheckedState) → AreRecords text.now records torn
        → StandsFor binding.now follower.old state → CanBeReplayed state records torn
        → IfOk result (λ fine. IsTrue fine × StandsFor binding.now follower.new (checked_all state records)) }
{
    let mut rest = text;
    let mut records = 0u64;
    'records: loop {
        let Some(found) = read_frame(alloc, rest, "checked-book", records + 1)? else {
            return Ok(true);
        };
        if !check_record(alloc, found.content, binding, follower)? {
            return Ok(found.rest.is_empty());
        }
        rest = found.rest;
        records += 1;
    }
}

/// Reads the text of a log: its base, and its records, whose lines are followed again with this binding. It has to be
/// the binding whose text the base has. The follower hashes ids with this key. What comes after the last whole frame is
/// ignored. A crash may keep only the two lines of the last frame, with other bytes between them: then the lines before
/// the first one that is no entry are taken. `None`: the text begins with no whole base, or such a frame is followed by
/// other bytes. The only error is that memory ran out.
pub fn read_log(
    alloc: Global,
    key: HashKey,
    text: &[u8],
    binding: &Binding,
) -> Result<Option<SavedState>, AllocError>
    ensures exact { IfOk result (λ read. IfSome read (IsRead binding.now text.now)) }
    ensures all { (binding_text : List ℕ) (base : CheckedFollowerState) (records : List (List ℕ)) (torn : List ℕ)
        (state : CheckedState) → CanBeSaved binding_text base
        → IsLogText text.now binding_text base records torn
        → StandsFor binding.now base state → CanBeReplayed state records torn
        → IfOk result (λ read. IsSomeAnd read (λ saved. (saved.binding.items ≡ binding_text)
        × StandsFor binding.now saved.follower (checked_all state records))) }
{
    let Some(found) = read_frame(alloc, text, "checked-book", 0)? else {
        return Ok(None);
    };
    let Some(saved) = read_state(alloc, key, found.content)? else {
        return Ok(None);
    };
    let SavedState {
        binding: binding_text,
        mut follower,
    } = saved;
    if check_records(alloc, found.rest, binding, &mut follower)? {
        Ok(Some(SavedState {
            binding: binding_text,
            follower,
        }))
    } else {
        Ok(None)
    }
}
