//! The state of checked following, kept as a log.

ghost use Rattle.std.specs.Prelude.{◌≡◌, OnErr, OnOk};
ghost use Rattle.cdc_checked_state.specs.Logs.{log_name};
ghost use Rattle.cdc_checked_state.specs.States.{state_text};
ghost use Rattle.cdc_frames.specs.Frames.{frame};
ghost use Rattle.cdc_streams.specs.Keeping.{AppendsText, ReplacesText};

use crate::checkers::{BoundFollower, CheckSetup, StreamChecker};
use cdc_checked_state::{base_text, record_text};
use cdc_files::StoreError;
use cdc_streams::{Keeps, Log, LogStore};
use std::alloc::Global;

/// The state of checked following, kept as a log: a base with the whole state, and a record for each save after it,
/// with the lines that were followed since.
#[derive(Drop)]
pub struct CheckedLog<L> {
    log: Log<L>,
}

impl<L: LogStore> CheckedLog<L> {
    /// A log in this store, whose next save is of the whole state.
    pub fn new(store: L) -> CheckedLog<L>
        ensures store { result.log.store ≡ store }
    {
        CheckedLog {
            log: Log::new(store),
        }
    }

    /// Replaces all by a base with the state of this follower.
    fn save_base(&mut self, alloc: Global, bound: &BoundFollower) -> Result<(), StoreError>
        ensures saved { OnOk result (ReplacesText (L.texts self.old.log.store) (L.texts self.new.log.store)
            (frame log_name 0 (state_text bound.now.binding_text.items bound.now.follower))) }
        ensures records { OnOk result (self.new.log.records ≡ 0) }
        ensures refused { OnErr result (L.texts self.new.log.store ≡ L.texts self.old.log.store) }
    {
        let text = base_text(alloc, bound.binding_text.as_slice(), &bound.follower)?;
        self.log.save_base(text.as_slice())
    }

    /// Appends the record of this number, with these lines.
    fn save_record(&mut self, alloc: Global, number: u64, lines: &[u8]) -> Result<(), StoreError>
        ensures saved { OnOk result (AppendsText (L.texts self.old.log.store) (L.texts self.new.log.store)
            (frame log_name number lines.now)) }
        ensures records { OnOk result (self.new.log.records ≡ number) }
        ensures refused { OnErr result (L.texts self.new.log.store ≡ L.texts self.old.log.store) }
    {
        let text = record_text(alloc, number, lines)?;
        self.log.save_record(number, text.as_slice())
    }
}

impl<L: LogStore> Keeps<StreamChecker> for CheckedLog<L> {
    ghost use Rattle.cdc_streams.proofs.KeepingLemmas.{adds_none};
    ghost use Rattle.cdc_checked_command.specs.Books.{HasLogged, IsTextOf};
    ghost use Rattle.cdc_checked_command.specs.Private.Kept.{FitsLog, fits_none as fits_untracked_one};
    ghost use Rattle.cdc_checked_command.specs.Private.Kept.{fits_on as fits_later_one};

    ghost has_kept = { HasLogged L.texts };

    ghost fits = { FitsLog L.texts };

    fn keep(
        &mut self,
        _setup: &CheckSetup,
        alloc: Global,
        consumer: &StreamChecker,
    ) -> Result<(), StoreError> {
        match (consumer.lines(), self.log.next_record()) {
            (Some(lines), Some(number)) => self.save_record(alloc, number, lines.as_slice()),
            _ => self.save_base(alloc, consumer.bound()),
        }
    }

    ghost has_kept_none = { λ _ it. adds_none IsTextOf (L.texts it.log.store) };

    ghost fits_untracked = { fits_untracked_one L.texts };

    ghost fits_on = { fits_later_one L.texts };
}
