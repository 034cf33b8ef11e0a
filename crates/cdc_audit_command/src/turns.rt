//! What becomes of a line: it is audited, it is skipped as a duplicate, or auditing stops at it.

ghost use Rattle.std.specs.Prelude.{◌≡◌, ◌≢◌, true, IfOk, IfSome, OnErr};
ghost use Rattle.cdc_follow.specs.LineParts.{HasNoFeed};
ghost use Rattle.cdc_audit_command.specs.Duplicates as spec;
ghost use Rattle.cdc_audit_command.specs.Private.Turns.{Keeps, LineTurns, StepTurns};

use cdc_audit::{AuditStop, Auditor, audit_line};
use cdc_follow::{Content, FollowError, LineError, ReadError, read_entry, read_line};
use std::alloc::Global;
use std::io::BufRead;

/// What becomes of a line.
#[derive(Clone, Copy)]
pub enum Turn {
    /// It is audited, and so are the lines after it.
    Audited,
    /// Its event isn't later than the last accepted one, and is skipped. The lines after it are audited.
    Duplicate,
    /// Auditing stops at it.
    Stops(AuditStop),
}

/// Whether an entry is a duplicate: it has an event that isn't later than the last accepted one, whose timestamp this
/// is.
fn is_duplicate(last: u64, content: &Content) -> bool
    ensures { result ≡ spec.is_duplicate last content.now }
{
    match content {
        Content::Event(event) => event.timestamp <= last,
        Content::End => false,
    }
}

/// Stops at the line of this number, which isn't read for this reason.
fn stop_at_line(number: u64, error: LineError) -> Result<Turn, FollowError>
    ensures { IfOk result (λ turn.
        (turn ≡ Turn.Stops (AuditStop.BadLine number error)) × (error ≢ LineError.OutOfMemory)) }
{
    match error {
        LineError::OutOfMemory => Err(FollowError::OutOfMemory),
        _ => Ok(Turn::Stops(AuditStop::BadLine(number, error))),
    }
}

/// Audits the line of this number unless it has a duplicate.
fn audit_new_bytes(
    alloc: Global,
    line: &[u8],
    number: u64,
    auditor: &mut Auditor,
) -> Result<Turn, FollowError>
    requires { HasNoFeed line.now }
    ensures leads { IfOk result (λ turn. LineTurns true number line.now auditor.old turn auditor.new) }
    ensures keeps { IfOk result (λ turn. Keeps turn line.now auditor.old auditor.new) }
    ensures err { OnErr result (auditor.new ≡ auditor.old) }
{
    let entry = match read_entry(alloc, line, false) {
        Ok(Some(entry)) => entry,
        Ok(None) => return Ok(Turn::Audited),
        Err(error) => return stop_at_line(number, error),
    };
    if is_duplicate(auditor.subscriber().last(), &entry.content) {
        return Ok(Turn::Duplicate);
    }
    let answer = auditor.take(&entry.content)?;
    if let Some(why) = answer {
        return Ok(Turn::Stops(AuditStop::Refused(number, why)));
    }
    Ok(Turn::Audited)
}

/// Reads the line of this number into the buffer, and audits it unless it has a duplicate.
fn audit_new_line<B: BufRead>(
    alloc: Global,
    reader: &mut B,
    line: &mut Vec<u8>,
    number: u64,
    auditor: &mut Auditor,
) -> Result<Turn, FollowError>
    ensures leads { IfOk result (λ turn. IfSome (B.remaining reader.old) (λ bytes. StepTurns true number auditor.old
        bytes turn auditor.new (B.remaining reader.new))) }
    ensures keeps { IfOk result (λ turn. Keeps turn line.new.items auditor.old auditor.new) }
    ensures err { OnErr result (auditor.new ≡ auditor.old) }
{
    match read_line(reader, line) {
        Ok(true) => audit_new_bytes(alloc, line.as_slice(), number, auditor),
        Ok(false) => Ok(Turn::Stops(AuditStop::AtEnd)),
        Err(ReadError::TooLong) => Ok(Turn::Stops(AuditStop::BadLine(number, LineError::TooLong))),
        Err(ReadError::Read(error)) => Err(FollowError::Read(error)),
        Err(ReadError::OutOfMemory) => Err(FollowError::OutOfMemory),
    }
}

/// Reads the line of this number into the buffer and audits it, or skips it if `skips` is true and it has a duplicate.
/// Unless the line is audited, and after an error, the auditor is as it was.
pub(crate) fn take_turn<B: BufRead>(
    alloc: Global,
    reader: &mut B,
    line: &mut Vec<u8>,
    number: u64,
    skips: bool,
    auditor: &mut Auditor,
) -> Result<Turn, FollowError>
    ensures leads { IfOk result (λ turn. IfSome (B.remaining reader.old) (λ bytes. StepTurns skips number auditor.old
        bytes turn auditor.new (B.remaining reader.new))) }
    ensures keeps { IfOk result (λ turn. Keeps turn line.new.items auditor.old auditor.new) }
    ensures err { OnErr result (auditor.new ≡ auditor.old) }
{
    if skips {
        return audit_new_line(alloc, reader, line, number, auditor);
    }
    match audit_line(alloc, reader, line, number, auditor) {
        Ok(None) => Ok(Turn::Audited),
        Ok(Some(stop)) => Ok(Turn::Stops(stop)),
        Err(error) => Err(error),
    }
}
