//! Checked following of a reader: its lines one after another, up to a refused event, a line that is no entry, or the
//! end.

ghost use Rattle.std.specs.Prelude.{◌≡◌, ◌≢◌, Some, None, IfOk, IfSome, IsSome, OnErr, if◌then◌else◌};
ghost use Rattle.cdc_follow.specs.LineParts.{HasNoFeed};
ghost use Rattle.cdc_checked_follow.specs.Checking as spec;
ghost use Rattle.cdc_checked_follow.specs.Streams.{Checks, IsTaken, KeepsFirst, LineLeadsTo, StepLeadsTo};
ghost use Rattle.cdc_checked_follow.specs.Turns.{LineTurns, StepTurns, stop_of};

use crate::follower::{CheckedFollower, Checking};
use crate::turns::{CheckTurn, following_of, refusal_of};
use cdc_audit::Refusal;
use cdc_follow::{FollowError, LineError, ReadError, Taken, read_entry, read_line};
use cdc_match::Binding;
use std::alloc::Global;
use std::io;
use std::io::{BufRead, ErrorKind};

/// Why checked following stops.
#[derive(Clone, Copy, Debug, PartialEq, Eq)]
pub enum CheckStop {
    /// The reader has no more lines.
    AtEnd,
    /// The line of this number has an event that is refused, for this reason. An earlier event of one of its accounts
    /// is missing.
    Gap(u64, Refusal),
    /// The line of this number is no entry, for this reason.
    BadLine(u64, LineError),
}

// Why following stops at the line of this number, with an entry of which this becomes.
fn stop_for(skips_gaps: bool, checking: Checking, number: u64) -> Option<CheckStop>
    ensures { result ≡ spec.stop_for skips_gaps checking number }
{
    match checking {
        Checking::Refused(why) => {
            if skips_gaps {
                None
            } else {
                Some(CheckStop::Gap(number, why))
            }
        }
        Checking::OutOfRange => Some(CheckStop::BadLine(number, LineError::TimestampOutOfRange)),
        Checking::Applied => None,
        Checking::Late => None,
        Checking::Ended => None,
    }
}

// Stops at the line of this number, which isn't read for this reason.
fn stop_at_line(number: u64, error: LineError) -> Result<CheckTurn, FollowError>
    ensures { IfOk result (λ turn.
        (turn ≡ CheckTurn.Stops (CheckStop.BadLine number error)) × (error ≢ LineError.OutOfMemory)) }
{
    match error {
        LineError::OutOfMemory => Err(FollowError::OutOfMemory),
        _ => Ok(CheckTurn::Stops(CheckStop::BadLine(number, error))),
    }
}

// Follows the line of this number.
fn check_bytes(
    alloc: Global,
    line: &[u8],
    number: u64,
    binding: &Binding,
    skips_gaps: bool,
    follower: &mut CheckedFollower,
) -> Result<CheckTurn, FollowError>
    ensures leads { IfOk result (λ turn. LineLeadsTo binding.now skips_gaps number line.now
        follower.old (stop_of turn) follower.new) }
    ensures turns { IfOk result (λ turn. LineTurns binding.now skips_gaps number line.now follower.old turn) }
    ensures taken { IfOk result (λ turn. stop_of turn ≡ None
        → IsTaken binding.now line.now follower.old follower.new) }
    ensures stays { IfOk result (λ turn. IsSome (stop_of turn) → follower.new ≡ follower.old) }
    ensures err { OnErr result (follower.new ≡ follower.old) }
{
    let entry = match read_entry(alloc, line, false) {
        Ok(Some(entry)) => entry,
        Ok(None) => return Ok(CheckTurn::GoesOn(Taken::Nothing, None)),
        Err(error) => return stop_at_line(number, error),
    };
    let checking = follower.take(binding, &entry)?;
    if let Some(stop) = stop_for(skips_gaps, checking, number) {
        return Ok(CheckTurn::Stops(stop));
    }
    let following = following_of(binding, &entry.content, checking);
    Ok(CheckTurn::GoesOn(Taken::Entry(entry, following), refusal_of(checking)))
}

/// Reads the line of this number into the buffer and follows it.
/// `skips_gaps`: a refused event is skipped, and following goes on with the events of all other accounts;
/// otherwise following stops at it. If following stops, and after an error, the follower is as it was.
pub fn check_line<B: BufRead>(
    alloc: Global,
    reader: &mut B,
    line: &mut Vec<u8>,
    number: u64,
    binding: &Binding,
    skips_gaps: bool,
    follower: &mut CheckedFollower,
) -> Result<CheckTurn, FollowError>
    ensures leads { IfOk result (λ turn. IfSome (B.remaining reader.old) (λ bytes. StepLeadsTo binding.now skips_gaps
        number follower.old bytes (stop_of turn) follower.new (B.remaining reader.new))) }
    ensures turns { IfOk result (λ turn. IfSome (B.remaining reader.old) (λ bytes.
        StepTurns binding.now skips_gaps number follower.old bytes turn)) }
    ensures taken { IfOk result (λ turn. stop_of turn ≡ None
        → HasNoFeed line.new.items × IsTaken binding.now line.new.items follower.old follower.new) }
    ensures stays { IfOk result (λ turn. IsSome (stop_of turn) → follower.new ≡ follower.old) }
    ensures err { OnErr result (follower.new ≡ follower.old) }
{
    match read_line(reader, line) {
        Ok(true) => check_bytes(alloc, line, number, binding, skips_gaps, follower),
        Ok(false) => Ok(CheckTurn::Stops(CheckStop::AtEnd)),
        Err(ReadError::TooLong) => {
            Ok(CheckTurn::Stops(CheckStop::BadLine(number, LineError::TooLong)))
        }
        Err(ReadError::Read(error)) => Err(FollowError::Read(error)),
        Err(ReadError::OutOfMemory) => Err(FollowError::OutOfMemory),
    }
}

/// Follows the lines of a reader, numbered from 1. After an error the follower stands for some number of the first
/// entries; an entry is never half taken.
pub fn check_stream<B: BufRead>(
    alloc: Global,
    reader: &mut B,
    binding: &Binding,
    skips_gaps: bool,
    follower: &mut CheckedFollower,
) -> Result<CheckStop, FollowError>
    ensures stops { IfOk result (λ stop. IfSome (B.remaining reader.old) (λ bytes.
        Checks binding.now skips_gaps follower.old bytes stop follower.new)) }
    ensures err { OnErr result (IfSome (B.remaining reader.old) (λ bytes.
        KeepsFirst binding.now skips_gaps follower.old bytes follower.new)) }
{
    let mut line = Vec::new(alloc);
    for number in 1..u64::MAX {
        let turn = check_line(
            alloc, reader, &mut line, number, binding, skips_gaps, follower,
        )?;
        if let CheckTurn::Stops(stop) = turn {
            return Ok(stop);
        }
    }
    Err(FollowError::Read(io::Error::from(ErrorKind::Other)))
}
