//! A chain's states, kept as a log in a store.

ghost use Rattle.std.specs.Prelude.{◌≡◌, ◌+◌, true, false, IfSome, OnErr, OnOk, map};
ghost use Rattle.cdc_frames.specs.Frames.{frame};
ghost use Rattle.cdc_streams.specs.Keeping.{AppendsText, ReplacesText};
ghost use Rattle.cdc_chain_command.specs.Logs.{log_name};
ghost use Rattle.cdc_chain_command.specs.Private.Steps.{FitsLog, Keeps};

use crate::logs::frame_text;
use crate::states::ChainSetup;
use cdc_chain::Chain;
use cdc_files::StoreError;
use cdc_streams::{Log, LogStore};
use std::alloc::Global;

/// The log of a chain's states in a store. Each save appends a frame with the state. The first one of a run replaces
/// all that was there, and so does one after which the log would be too long.
#[derive(Drop)]
pub struct ChainLog<L> {
    log: Log<L>,
    /// Whether the text in the store is a log that this run has begun.
    has_begun: bool,
}

impl<L: LogStore> ChainLog<L> {
    /// A log in this store, whose next save replaces what the store has.
    pub fn new(store: L) -> ChainLog<L>
        ensures store { result.log.store ≡ store }
        ensures fresh { result.has_begun ≡ false }
    {
        ChainLog {
            log: Log::new(store),
            has_begun: false,
        }
    }

    /// The number of the frame that may be appended; `None` if the next one is to replace all.
    fn next_frame(&self) -> Option<u64>
        ensures { IfSome result (λ number. (self.now.has_begun ≡ true) × (number ≡ self.now.log.records + 1)) }
    {
        if self.has_begun {
            self.log.next_record()
        } else {
            None
        }
    }

    /// Replaces all by a frame with this text of a state.
    fn begin(&mut self, alloc: Global, state: &[u8]) -> Result<(), StoreError>
        ensures saved { OnOk result (ReplacesText (L.texts self.old.log.store) (L.texts self.new.log.store)
            (frame log_name 0 state.now)) }
        ensures records { OnOk result (self.new.log.records ≡ 0) }
        ensures refused { OnErr result (L.texts self.new.log.store ≡ L.texts self.old.log.store) }
    {
        let text = frame_text(alloc, 0, state)?;
        self.log.save_base(text.as_slice())?;
        self.has_begun = true;
        Ok(())
    }

    /// Appends the frame of this number with this text of a state.
    fn append(&mut self, alloc: Global, number: u64, state: &[u8]) -> Result<(), StoreError>
        ensures saved { OnOk result (AppendsText (L.texts self.old.log.store) (L.texts self.new.log.store)
            (frame log_name number state.now)) }
        ensures records { OnOk result (self.new.log.records ≡ number) }
        ensures refused { OnErr result (L.texts self.new.log.store ≡ L.texts self.old.log.store) }
    {
        let text = frame_text(alloc, number, state)?;
        self.log.save_record(number, text.as_slice())
    }

    /// Keeps a state. After an error, what was held before is held, or this too.
    pub(crate) fn keep(
        &mut self,
        alloc: Global,
        setup: &ChainSetup,
        chain: &Chain,
    ) -> Result<(), StoreError>
        ensures kept { FitsLog L.texts (map (λ t. t.items) setup.now.texts.items) self.old
            → OnOk result (Keeps (map (λ t. t.items) setup.now.texts.items) (L.texts self.old.log.store)
            (L.texts self.new.log.store) chain.now) }
        ensures fits { FitsLog L.texts (map (λ t. t.items) setup.now.texts.items) self.old
            → OnOk result (FitsLog L.texts (map (λ t. t.items) setup.now.texts.items) self.new) }
        ensures refused { OnErr result (L.texts self.new.log.store ≡ L.texts self.old.log.store) }
    {
        let text = setup.text_of(alloc, chain)?;
        let state = text.as_slice();
        match self.next_frame() {
            Some(number) => self.append(alloc, number, state),
            None => self.begin(alloc, state),
        }
    }
}
