//! Auditing a reader: its lines one after another, up to an event that is refused, a line that is no entry, or the end.

ghost use Rattle.std.specs.Prelude.{◌≡◌, ◌≢◌, Some, None, IfOk, IfSome, IsSome, OnErr};
ghost use Rattle.cdc_follow.specs.LineParts.{HasNoFeed};
ghost use Rattle.cdc_audit.specs.Stops.{Audits, IsTaken, KeepsFirst, LineLeadsTo, StepLeadsTo};

use crate::auditor::Auditor;
use crate::refusals::Refusal;
use cdc_follow::{FollowError, LineError, ReadError, read_entry, read_line};
use std::alloc::Global;
use std::io;
use std::io::{BufRead, ErrorKind};

/// Why an audit stops.
#[derive(Clone, Copy, Debug, PartialEq, Eq)]
pub enum AuditStop {
    /// The reader has no more lines, and all events are accepted.
    AtEnd,
    /// The line of this number has an event that is refused, for this reason.
    Refused(u64, Refusal),
    /// The line of this number is no entry, for this reason.
    BadLine(u64, LineError),
}

// Stops at the line of this number, which isn't read for this reason.
fn stop_at_line(number: u64, error: LineError) -> Result<Option<AuditStop>, FollowError>
    ensures { IfOk result (λ stop.
        (stop ≡ Some (AuditStop.BadLine number error)) × (error ≢ LineError.OutOfMemory)) }
{
    match error {
        LineError::OutOfMemory => Err(FollowError::OutOfMemory),
        _ => Ok(Some(AuditStop::BadLine(number, error))),
    }
}

// Audits the line of this number. `None`: what comes after it is to be audited too.
fn audit_bytes(
    alloc: Global,
    line: &[u8],
    number: u64,
    auditor: &mut Auditor,
) -> Result<Option<AuditStop>, FollowError>
    ensures leads { IfOk result (λ stop. LineLeadsTo number line.now auditor.old stop auditor.new) }
    ensures taken { IfOk result (λ stop. stop ≡ None → IsTaken line.now auditor.old auditor.new) }
    ensures stays { IfOk result (λ stop. IsSome stop → auditor.new ≡ auditor.old) }
    ensures err { OnErr result (auditor.new ≡ auditor.old) }
{
    let entry = match read_entry(alloc, line, false) {
        Ok(Some(entry)) => entry,
        Ok(None) => return Ok(None),
        Err(error) => return stop_at_line(number, error),
    };
    let answer = auditor.take(&entry.content)?;
    if let Some(why) = answer {
        return Ok(Some(AuditStop::Refused(number, why)));
    }
    Ok(None)
}

/// Reads the line of this number into the buffer and audits it. `None`: the lines after it are to be audited too. If the
/// audit stops, and after an error, the auditor is as it was.
pub fn audit_line<B: BufRead>(
    alloc: Global,
    reader: &mut B,
    line: &mut Vec<u8>,
    number: u64,
    auditor: &mut Auditor,
) -> Result<Option<AuditStop>, FollowError>
    ensures leads { IfOk result (λ stop. IfSome (B.remaining reader.old) (λ bytes. StepLeadsTo number auditor.old
        bytes stop auditor.new (B.remaining reader.new))) }
    ensures taken { IfOk result (λ stop. stop ≡ None
        → HasNoFeed line.new.items × IsTaken line.new.items auditor.old auditor.new) }
    ensures stays { IfOk result (λ stop. IsSome stop → auditor.new ≡ auditor.old) }
    ensures err { OnErr result (auditor.new ≡ auditor.old) }
{
    match read_line(reader, line) {
        Ok(true) => audit_bytes(alloc, line, number, auditor),
        Ok(false) => Ok(Some(AuditStop::AtEnd)),
        Err(ReadError::TooLong) => Ok(Some(AuditStop::BadLine(number, LineError::TooLong))),
        Err(ReadError::Read(error)) => Err(FollowError::Read(error)),
        Err(ReadError::OutOfMemory) => Err(FollowError::OutOfMemory),
    }
}

/// Audits the lines of a reader, numbered from 1. After an error the auditor stands for some number of the first
/// entries; an entry is never half taken.
pub fn audit<B: BufRead>(
    alloc: Global,
    reader: &mut B,
    auditor: &mut Auditor,
) -> Result<AuditStop, FollowError>
    ensures stops { IfOk result (λ stop. IfSome (B.remaining reader.old) (λ bytes.
        Audits auditor.old bytes stop auditor.new)) }
    ensures err { OnErr result (IfSome (B.remaining reader.old) (λ bytes.
        KeepsFirst auditor.old bytes auditor.new)) }
{
    let mut line = Vec::new(alloc);
    for number in 1..u64::MAX {
        let next = audit_line(alloc, reader, &mut line, number, auditor)?;
        if let Some(stop) = next {
            return Ok(stop);
        }
    }
    Err(FollowError::Read(io::Error::from(ErrorKind::Other)))
}
