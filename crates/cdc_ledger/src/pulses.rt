//! Pulses, which expire the pending transfers that are due.

ghost use Rattle.std.specs.Prelude.{◌≡◌, ◌≢◌, ◌+◌, ◌≤◌, ◌<◌, [], length};
ghost use Rattle.cdc_ledger.specs.Answers.{Answers};
ghost use Rattle.cdc_ledger.specs.Changes.{pushed, expiry};
ghost use Rattle.cdc_ledger.specs.Due.{due};
ghost use Rattle.cdc_ledger.specs.Follows.{Follows, IsDueNext};
ghost use Rattle.cdc_ledger.specs.Movements.{IsStoredAt};
ghost use Rattle.cdc_ledger.specs.Submit.{expiries_from};
ghost use Rattle.cdc_ledger.specs.EmittedHistory.{IsEmitted};
ghost use Rattle.cdc_ledger.specs.Verdict.{max_timestamp};

use crate::emitted::Emitted;
use crate::errors::BatchError;
use crate::movements::Pending;
use crate::tables::Tables;
use cdc_types::{Batch, BatchResults, Entry, EventKind};

impl Tables {
    /// The number of pending transfers that are due at `now`.
    fn due_count(&self, emitted: &Emitted, now: u64) -> usize
        requires { IsEmitted self.now.history emitted.now }
        ensures { result ≡ length (due self.now.history now) }
    {
        let _entries = self.entries();
        emitted.index.due_count(now)
    }

    /// The first to expire of the pending transfers that are due at `now`. There is at least one.
    fn first_due(&self, emitted: &Emitted, now: u64) -> Pending
        requires emitted { IsEmitted self.now.history emitted.now }
        requires some { due self.now.history now ≢ [] }
        ensures next { IsDueNext self.now.history now result.transfer }
        ensures found { IsStoredAt self.now.history result.transfer.id result.place }
    {
        let entries = self.entries();
        let first = emitted.index.due(now).unwrap();
        Pending {
            transfer: entries[first.slot].transfer,
            place: first.slot,
        }
    }

    /// Expires the pending transfer, which nothing has settled yet. Memory is reserved for its entry.
    fn expire(&mut self, emitted: &mut Emitted, pending: Pending, timestamp: u64)
        requires emitted { IsEmitted self.old.history emitted.old }
        requires log_room { 0 < emitted.old.log.room }
        requires later { self.old.history.last < timestamp }
        requires within { timestamp ≤ max_timestamp }
        requires room { 0 < self.old.entry_room }
        requires follows { Follows self.old.history (expiry pending.transfer timestamp) }
        requires found { IsStoredAt self.old.history pending.transfer.id pending.place }
        ensures history { self.new.history
            ≡ pushed self.old.history (expiry pending.transfer timestamp) }
        ensures emitted { IsEmitted self.new.history emitted.new }
        ensures room { self.new.entry_room + 1 ≡ self.old.entry_room }
        ensures log_room { emitted.new.log.room + 1 ≡ emitted.old.log.room }
    {
        let entry = Entry {
            timestamp,
            kind: EventKind::TwoPhaseExpired,
            transfer: pending.transfer,
        };
        let movement = self.settling(entry, pending);
        self.take(emitted, &movement);
    }

    /// Expires all pending transfers that are due at `now`. There are `count` of them, and their entries have the
    /// timestamps from `base` on. Memory is reserved for the entries.
    fn expire_all(&mut self, emitted: &mut Emitted, now: u64, base: u64, count: usize)
        requires emitted { IsEmitted self.old.history emitted.old }
        requires log_room { count ≤ emitted.old.log.room }
        requires later { self.old.history.last < base }
        requires within { 0 < count → base + count ≤ max_timestamp + 1 }
        requires room { count ≤ self.old.entry_room }
        requires count { count ≡ length (due self.old.history now) }
        ensures history { self.new.history
            ≡ expiries_from self.old.history base (due self.old.history now) }
        ensures emitted { IsEmitted self.new.history emitted.new }
    {
        for place in 0..count {
            let pending = self.first_due(emitted, now);
            self.expire(emitted, pending, base + place as u64);
        }
    }

    /// Expires the pending transfers that are due at `now`, and returns their number.
    pub(crate) fn pulse(&mut self, emitted: &mut Emitted, now: u64) -> Result<u64, BatchError>
        requires { IsEmitted self.old.history emitted.old }
        ensures answers { Answers BatchResults.Pulsed self.old.history (Batch.Pulse now) result
            self.new.history }
        ensures emitted { IsEmitted self.new.history emitted.new }
    {
        let count = self.due_count(emitted, now);
        if let Some(refusal) = self.batch_refusal(false, now, count) {
            return Err(refusal);
        }
        self.reserve_entries(count)?;
        emitted.reserve_events(count)?;
        let base = self.base(now);
        self.expire_all(emitted, now, base, count);
        Ok(count as u64)
    }
}
