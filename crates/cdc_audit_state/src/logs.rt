//! The log of a state: how it is written, and how it is read back.

ghost use Rattle.std.specs.Prelude.{◌≡◌, ◌↔◌, ℕ, List, IfOk, IfSome, IsSomeAnd, IsTrue};
ghost use Rattle.cdc_audit.specs.Audits.{AuditState, bytes_audited};
ghost use Rattle.cdc_audit.specs.Standing.{AuditorState, StandsFor};
ghost use Rattle.cdc_audit_state.specs.Logs.{CanBeReplayed, IsLogText, IsRead, audited_all, log_name};
ghost use Rattle.cdc_audit_state.specs.Records.{AreRecords, AuditsRecords};
ghost use Rattle.cdc_audit_state.specs.Saveable.{CanBeSaved};
ghost use Rattle.cdc_audit_state.specs.States.{state_text};
ghost use Rattle.cdc_frames.specs.Frames.{frame};

use crate::printing::push_state;
use crate::saved::read_state;
use cdc_audit::{AuditStop, Auditor, audit};
use cdc_frames::{read_frame, write_frame};
use cdc_keys::HashKey;
use std::alloc::{AllocError, Global};

/// The text of the record of this number, from 1 on, with the lines that were audited since the record before it, each
/// with its line feed. The one error is that memory ran out.
pub fn record_text(alloc: Global, number: u64, lines: &[u8]) -> Result<Vec<u8>, AllocError>
    ensures { IfOk result (λ text. text.items ≡ frame log_name number lines.now) }
{
    let mut text = Vec::new(alloc);
    // (a write to a vector fails only if memory runs out)
    match write_frame(&mut text, "audit-state", number, lines) {
        Ok(()) => Ok(text),
        Err(_) => Err(AllocError),
    }
}

/// The text of the base of a log. The one error is that memory ran out.
pub fn base_text(alloc: Global, auditor: &Auditor) -> Result<Vec<u8>, AllocError>
    ensures { IfOk result (λ text. text.items ≡ frame log_name 0 (state_text auditor.now)) }
{
    let mut state = Vec::new(alloc);
    push_state(alloc, &mut state, auditor)?;
    record_text(alloc, 0, state.as_slice())
}

/// Audits the lines of a record. `false`: one isn't accepted, and those before it are.
fn audit_record(alloc: Global, lines: &[u8], auditor: &mut Auditor) -> Result<bool, AllocError>
    ensures whole { IfOk result (λ is_whole. (state : AuditState) → StandsFor auditor.old state
        → IsTrue is_whole ↔ ((bytes_audited state lines.now).stop ≡ AuditStop.AtEnd)) }
    ensures stands { IfOk result (λ _. (state : AuditState) → StandsFor auditor.old state
        → StandsFor auditor.new (bytes_audited state lines.now).state) }
{
    let mut reader = lines;
    // (bytes in memory can be read, so an audit of them fails only if memory runs out)
    match audit(alloc, &mut reader, auditor) {
        Ok(AuditStop::AtEnd) => Ok(true),
        Ok(_) => Ok(false),
        Err(_) => Err(AllocError),
    }
}

/// Audits the records that follow a base, the last one as far as it is accepted. `false`: one that isn't accepted is
/// followed by other bytes.
fn audit_records(alloc: Global, text: &[u8], auditor: &mut Auditor) -> Result<bool, AllocError>
    ensures exact { IfOk result (λ fine. IsTrue fine → AuditsRecords text.now auditor.old auditor.new) }
    ensures all { (records : List (List ℕ)) (torn : List ℕ) (state : AuditState) → AreRecords text.now records torn
        → StandsFor auditor.old state → CanBeReplayed state records torn
        → IfOk result (λ fine. IsTrue fine × StandsFor auditor.new (audited_all state records)) }
{
    let mut rest = text;
    let mut records = 0u64;
    'records: loop {
        let Some(found) = read_frame(alloc, rest, "audit-state", records + 1)? else {
            return Ok(true);
        };
        if !audit_record(alloc, found.content, auditor)? {
            return Ok(found.rest.is_empty());
        }
        rest = found.rest;
        records += 1;
    }
}

/// Reads the text of a log: its base, and its records, whose lines are audited again. The auditor hashes ids with this key. What follows the last whole frame
/// is ignored. Of a last frame with other bytes than a record's, such as one of which a crash kept only the two lines,
/// the lines before the first one that isn't accepted are taken. `None`: the text begins with no whole base, or such a
/// frame is followed by other bytes. The only error is that memory ran out.
pub fn read_log(alloc: Global, key: HashKey, text: &[u8]) -> Result<Option<Auditor>, AllocError>
    ensures exact { IfOk result (λ read. IfSome read (IsRead text.now)) }
    ensures all { (base : AuditorState) (records : List (List ℕ)) (torn : List ℕ) (state : AuditState)
        → CanBeSaved base → IsLogText text.now base records torn → StandsFor base state
        → CanBeReplayed state records torn
        → IfOk result (λ read. IsSomeAnd read (λ auditor. StandsFor auditor (audited_all state records))) }
{
    let Some(found) = read_frame(alloc, text, "audit-state", 0)? else {
        return Ok(None);
    };
    let Some(mut auditor) = read_state(alloc, key, found.content)? else {
        return Ok(None);
    };
    if audit_records(alloc, found.rest, &mut auditor)? {
        Ok(Some(auditor))
    } else {
        Ok(None)
    }
}
