//! An auditor's state: what is saved of it, and how it goes on.

ghost use Rattle.std.specs.Prelude.{◌≡◌, ◌≢◌, ◌⊎◌, ℕ, List, IfOk, IfErr, OnErr, OnOk};
ghost use Rattle.cdc_audit.specs.Audits.{AuditState};
ghost use Rattle.cdc_audit.specs.Standing.{AuditorState, StandsFor};
ghost use Rattle.cdc_audit_state.specs.Logs.{CanBeReplayed, IsLogText, audited_all, log_name};
ghost use Rattle.cdc_audit_state.specs.Saveable.{CanBeSaved};
ghost use Rattle.cdc_audit_state.specs.States.{state_text};
ghost use Rattle.cdc_frames.specs.Frames.{frame};
ghost use Rattle.cdc_streams.specs.Keeping.{AppendsText, ReplacesText};
ghost use Rattle.cdc_audit_command.specs.States.{IsNoState, IsRefused, IsResumed};

use crate::auditors::{AuditSetup, StreamAuditor};
use cdc_audit::Auditor;
use cdc_audit_state::{base_text, read_log, read_state, record_text};
use cdc_files::StoreError;
use cdc_keys::HashKey;
use cdc_streams::{Keeps, Log, LogStore};
use std::alloc::Global;

/// The auditor of a saved state with this text, which hashes ids with this key: of a log, whose torn end is ignored, or
/// of the state alone, as it was saved before version 1.2. `BadRecord`: the text is neither, or it is of another
/// ledger's stream and `foreign` is false, or the other way round.
pub fn resume(
    alloc: Global,
    key: HashKey,
    text: &[u8],
    foreign: bool,
) -> Result<Auditor, StoreError>
    ensures resumed { IfOk result (IsResumed foreign text.now) }
    ensures all { (base : AuditorState) (records : List (List ℕ)) (torn : List ℕ) (state : AuditState)
        → CanBeSaved base → IsLogText text.now base records torn → StandsFor base state
        → CanBeReplayed state records torn → state.foreign ≡ foreign
        → IfOk result (λ auditor. StandsFor auditor (audited_all state records)) }
    ensures refused { IfErr result (IsRefused foreign text.now) }
{
    match read_log(alloc, key, text)? {
        Some(found) if found.foreign() == foreign => Ok(found),
        _ => resume_text(alloc, key, text, foreign),
    }
}

/// The auditor of a state with this text, which is no log.
fn resume_text(
    alloc: Global,
    key: HashKey,
    text: &[u8],
    foreign: bool,
) -> Result<Auditor, StoreError>
    ensures resumed { IfOk result (λ auditor. (text.now ≡ state_text auditor) × (auditor.foreign ≡ foreign)) }
    ensures refused { IfErr result (λ error. (error ≡ StoreError.OutOfMemory)
        ⊎ ((error ≡ StoreError.BadRecord) × IsNoState foreign text.now)) }
{
    match read_state(alloc, key, text)? {
        Some(auditor) if auditor.foreign() == foreign => Ok(auditor),
        _ => Err(StoreError::BadRecord),
    }
}

/// The state of an auditor, kept as a log: a base with the whole state, and a record for each save after it, with the
/// lines that were audited since.
#[derive(Drop)]
pub struct StateLog<L> {
    log: Log<L>,
}

impl<L: LogStore> StateLog<L> {
    /// A log in this store, whose next save is of the whole state.
    pub fn new(store: L) -> StateLog<L>
        ensures store { result.log.store ≡ store }
    {
        StateLog {
            log: Log::new(store),
        }
    }

    /// Replaces all by a base with the state of this auditor.
    fn save_base(&mut self, alloc: Global, auditor: &Auditor) -> Result<(), StoreError>
        ensures saved { OnOk result (ReplacesText (L.texts self.old.log.store) (L.texts self.new.log.store)
            (frame log_name 0 (state_text auditor.now))) }
        ensures records { OnOk result (self.new.log.records ≡ 0) }
        ensures refused { OnErr result (L.texts self.new.log.store ≡ L.texts self.old.log.store) }
    {
        let text = base_text(alloc, auditor)?;
        self.log.save_base(text.as_slice())
    }

    /// Appends the record of this number, with these lines.
    fn save_record(&mut self, alloc: Global, number: u64, lines: &[u8]) -> Result<(), StoreError>
        ensures saved { OnOk result (AppendsText (L.texts self.old.log.store) (L.texts self.new.log.store)
            (frame log_name number lines.now)) }
        ensures records { OnOk result (self.new.log.records ≡ number) }
        ensures refused { OnErr result (L.texts self.new.log.store ≡ L.texts self.old.log.store) }
    {
        let text = record_text(alloc, number, lines)?;
        self.log.save_record(number, text.as_slice())
    }
}

impl<L: LogStore> Keeps<StreamAuditor> for StateLog<L> {
    ghost use Rattle.cdc_streams.proofs.KeepingLemmas.{adds_none};
    ghost use Rattle.cdc_audit_command.specs.States.{HasLogged, IsTextOf};
    ghost use Rattle.cdc_audit_command.specs.Private.Kept.{FitsLog, fits_none as fits_untracked_one};
    ghost use Rattle.cdc_audit_command.specs.Private.Kept.{fits_on as fits_later_one};

    ghost has_kept = { HasLogged L.texts };

    ghost fits = { FitsLog L.texts };

    fn keep(
        &mut self,
        _setup: &AuditSetup,
        alloc: Global,
        consumer: &StreamAuditor,
    ) -> Result<(), StoreError> {
        match (consumer.lines(), self.log.next_record()) {
            (Some(lines), Some(number)) => self.save_record(alloc, number, lines.as_slice()),
            _ => self.save_base(alloc, consumer.auditor()),
        }
    }

    ghost has_kept_none = { λ _ it. adds_none IsTextOf (L.texts it.log.store) };

    ghost fits_untracked = { fits_untracked_one L.texts };

    ghost fits_on = { fits_later_one L.texts };
}
