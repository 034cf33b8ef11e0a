//! Following a reader: its lines one after another, up to a gap, a line that is no entry, or the end.

ghost use Rattle.std.specs.Prelude.{◌≡◌, ◌≢◌, IfOk, IfSome, OnErr, OnOk};
ghost use Rattle.cdc_follow.specs.Following.{stops_at as stops_following};
ghost use Rattle.cdc_follow.specs.Stops.{KeepsFirst, LineLeadsTo, StepLeadsTo};
ghost use Rattle.cdc_follow.specs.Stops.{bytes_followed, stop_by as why_it_stops, stop_of};
ghost use Rattle.cdc_follow.specs.Turns.{LineTurns, StepTurns};

use crate::entries::{Entry, read_entry};
use crate::errors::LineError;
use crate::follower::{Follower, Following, TakesEntries};
use crate::lines::{ReadError, read_line};
use cdc_match::Binding;
use std::alloc::{AllocError, Global};
use std::io;
use std::io::{BufRead, ErrorKind};
use thiserror::Error;

/// How a stream is read and followed.
#[derive(Clone, Copy, Debug, PartialEq, Eq)]
pub struct Rules {
    /// Each entry has to name its predecessor.
    pub chained: bool,
    /// An entry before which there is a gap is skipped; otherwise following stops at it.
    pub skips_gaps: bool,
}

/// Why following stops.
#[derive(Clone, Copy, Debug, PartialEq, Eq)]
pub enum Stop {
    /// The reader has no more lines.
    AtEnd,
    /// The line of this number has this entry, before which there is a gap: events are missing, or it isn't of this
    /// queue.
    Gap(u64, Entry),
    /// The line of this number has this entry, which contradicts the end that was received before.
    AfterEnd(u64, Entry),
    /// The line of this number is no entry, for this reason.
    BadLine(u64, LineError),
}

/// What a line was taken for.
#[derive(Clone, Copy, Debug, PartialEq, Eq)]
pub enum Taken {
    /// It has no entry: it is empty, or has headers alone.
    Nothing,
    /// It has this entry, of which this became.
    Entry(Entry, Following),
}

/// What comes of a line.
#[derive(Clone, Copy, Debug, PartialEq, Eq)]
pub enum Turn {
    /// It was taken so, and the lines after it are to be followed too.
    GoesOn(Taken),
    /// Following stops at it.
    Stops(Stop),
}

/// Why following failed.
#[derive(Debug, Drop, Error)]
pub enum FollowError {
    /// The reader failed.
    #[error("{0}")]
    Read(io::Error),
    /// Memory ran out.
    #[error("out of memory")]
    OutOfMemory,
}

impl From<AllocError> for FollowError {
    ghost use Rattle.std.specs.Prelude.{◌≡◌};
    ghost use Rattle.cdc_follow.specs.declared.streams.FollowError.TheVariants.{OutOfMemory};

    ghost from_gives = { λ _ e. e ≡ OutOfMemory };

    fn from(_error: AllocError) -> FollowError {
        FollowError::OutOfMemory
    }
}

// Whether following stops at an entry of which this became.
fn stops_at(following: Following, rules: Rules) -> bool
    ensures { result ≡ stops_following rules.skips_gaps following }
{
    match following {
        Following::Gap => !rules.skips_gaps,
        Following::AfterEnd | Following::OutOfRange => true,
        Following::Applied | Following::PassedBy | Following::Duplicate | Following::Ended => false,
    }
}

// Why following stops at the entry of the line of this number, of which this became.
fn stop_by(following: Following, number: u64, entry: Entry) -> Stop
    ensures { result ≡ why_it_stops following (record { line = number; entry = entry }) }
{
    match following {
        Following::AfterEnd => Stop::AfterEnd(number, entry),
        Following::OutOfRange => Stop::BadLine(number, LineError::TimestampOutOfRange),
        _ => Stop::Gap(number, entry),
    }
}

// Stops at the line of this number, which isn't read for this reason.
fn stop_at_line(number: u64, error: LineError) -> Result<Turn, FollowError>
    ensures { IfOk result (λ turn. (turn ≡ Turn.Stops (Stop.BadLine number error))
        × (error ≢ LineError.OutOfMemory)) }
{
    match error {
        LineError::OutOfMemory => Err(FollowError::OutOfMemory),
        _ => Ok(Turn::Stops(Stop::BadLine(number, error))),
    }
}

// Follows the line of this number.
fn follow_bytes<T: TakesEntries>(
    alloc: Global,
    line: &[u8],
    number: u64,
    binding: &Binding,
    rules: Rules,
    follower: &mut T,
) -> Result<Turn, FollowError>
    ensures leads { IfOk result (λ turn. LineLeadsTo binding.now rules number line.now
        (T.state follower.old) (stop_of turn) (T.state follower.new)) }
    ensures turns { IfOk result (λ turn. LineTurns binding.now rules number line.now
        (T.state follower.old) turn (T.state follower.new)) }
    ensures moves { OnOk result (T.moves follower.old follower.new) }
    ensures err { OnErr result (follower.new ≡ follower.old) }
{
    let entry = match read_entry(alloc, line, rules.chained) {
        Ok(Some(entry)) => entry,
        Ok(None) => return Ok(Turn::GoesOn(Taken::Nothing)),
        Err(error) => return stop_at_line(number, error),
    };
    let following = follower.take_entry(binding, &entry)?;
    if stops_at(following, rules) {
        return Ok(Turn::Stops(stop_by(following, number, entry)));
    }
    Ok(Turn::GoesOn(Taken::Entry(entry, following)))
}

/// Reads the line of this number into the buffer and follows it. After an error the follower is as it was.
pub fn follow_line<B: BufRead, T: TakesEntries>(
    alloc: Global,
    reader: &mut B,
    line: &mut Vec<u8>,
    number: u64,
    binding: &Binding,
    rules: Rules,
    follower: &mut T,
) -> Result<Turn, FollowError>
    ensures leads { IfOk result (λ turn. IfSome (B.remaining reader.old) (λ bytes. StepLeadsTo binding.now rules number
        (T.state follower.old) bytes (stop_of turn) (T.state follower.new) (B.remaining reader.new))) }
    ensures turns { IfOk result (λ turn. IfSome (B.remaining reader.old) (λ bytes. StepTurns binding.now rules number
        (T.state follower.old) bytes turn (T.state follower.new) (B.remaining reader.new))) }
    ensures moves { OnOk result (T.moves follower.old follower.new) }
    ensures err { OnErr result (follower.new ≡ follower.old) }
{
    match read_line(reader, line) {
        Ok(true) => follow_bytes(alloc, line, number, binding, rules, follower),
        Ok(false) => Ok(Turn::Stops(Stop::AtEnd)),
        Err(ReadError::TooLong) => Ok(Turn::Stops(Stop::BadLine(number, LineError::TooLong))),
        Err(ReadError::Read(error)) => Err(FollowError::Read(error)),
        Err(ReadError::OutOfMemory) => Err(FollowError::OutOfMemory),
    }
}

/// Follows the lines of a reader, numbered from 1. After an error the follower keeps what some number of the first
/// entries make; an entry is never half taken.
pub fn follow<B: BufRead>(
    alloc: Global,
    reader: &mut B,
    binding: &Binding,
    rules: Rules,
    follower: &mut Follower,
) -> Result<Stop, FollowError>
    ensures stops { IfOk result (λ stop. IfSome (B.remaining reader.old) (λ bytes.
        bytes_followed binding.now rules follower.old bytes ≡ record { state = follower.new; stop = stop })) }
    ensures err { OnErr result (IfSome (B.remaining reader.old) (λ bytes.
        KeepsFirst binding.now rules follower.old bytes follower.new)) }
{
    let mut line = Vec::new(alloc);
    for number in 1..u64::MAX {
        let turn = follow_line(alloc, reader, &mut line, number, binding, rules, follower)?;
        if let Turn::Stops(stop) = turn {
            return Ok(stop);
        }
    }
    Err(FollowError::Read(io::Error::from(ErrorKind::Other)))
}
