//! A log: a text that holds the whole of something, and records of what changed since.

ghost use Rattle.std.specs.Prelude.{◌≡◌, ◌+◌, IfSome, OnErr, OnOk};
ghost use Rattle.cdc_streams.specs.Keeping.{AppendsText, ReplacesText};

use crate::stores::LogStore;
use cdc_files::StoreError;

/// How many bytes of records a log may have whatever its base has.
const RECORD_BYTES: usize = 1 << 20;

/// How many times as many bytes as its base the records of a log may have.
const RECORDS_PER_BASE: usize = 4;

/// A log in a store: a base, and records after it. Once the records outgrow the base, a new base has to replace all.
#[derive(Drop)]
pub struct Log<L> {
    store: L,
    /// How many records follow the base.
    records: u64,
    base_bytes: usize,
    record_bytes: usize,
}

impl<L: LogStore> Log<L> {
    /// A log in this store, of which nothing is known.
    pub fn new(store: L) -> Log<L>
        ensures store { result.store ≡ store }
    {
        Log {
            store,
            records: 0,
            base_bytes: 0,
            record_bytes: 0,
        }
    }

    /// The number of the next record, from 1 on; `None` if the records have outgrown the base.
    pub fn next_record(&self) -> Option<u64>
        ensures { IfSome result (λ number. number ≡ self.now.records + 1) }
    {
        let most = self.base_bytes.saturating_mul(RECORDS_PER_BASE);
        if self.record_bytes > most && self.record_bytes > RECORD_BYTES {
            return None;
        }
        self.records.checked_add(1)
    }

    /// Replaces all by a base with this text.
    pub fn save_base(&mut self, text: &[u8]) -> Result<(), StoreError>
        ensures saved { OnOk result (ReplacesText (L.texts self.old.store) (L.texts self.new.store) text.now) }
        ensures records { OnOk result (self.new.records ≡ 0) }
        ensures refused { OnErr result (L.texts self.new.store ≡ L.texts self.old.store) }
    {
        self.store.replace(text)?;
        self.records = 0;
        self.base_bytes = text.len();
        self.record_bytes = 0;
        Ok(())
    }

    /// Appends the text of the record of this number.
    pub fn save_record(&mut self, number: u64, text: &[u8]) -> Result<(), StoreError>
        ensures saved { OnOk result (AppendsText (L.texts self.old.store) (L.texts self.new.store) text.now) }
        ensures records { OnOk result (self.new.records ≡ number) }
        ensures refused { OnErr result (L.texts self.new.store ≡ L.texts self.old.store) }
    {
        self.store.append(text)?;
        self.records = number;
        self.record_bytes = self.record_bytes.saturating_add(text.len());
        Ok(())
    }
}
