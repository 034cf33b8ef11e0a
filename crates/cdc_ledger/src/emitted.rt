//! What the ledger derives from its entries: the log of events, and the index of pending transfers that may expire.

ghost use Rattle.std.specs.Prelude.{◌≡◌, ◌+◌, ◌≤◌, ◌<◌, ◌^◌, ◌++◌, [], ◌∷◌, true, IfSome, IfErr, OnErr, OnOk};
ghost use Rattle.std.specs.FinSet as set;
ghost use Rattle.cdc_expiry.specs.Triples.{IsNewTimestamp};
ghost use Rattle.cdc_types.specs.Timestamps.{last_timestamp};
ghost use Rattle.cdc_ledger.specs.Filling as filling;
ghost use Rattle.cdc_ledger.specs.Movements.{settled_transfer};
ghost use Rattle.cdc_ledger.specs.OpenTriples as triples;
ghost use Rattle.cdc_ledger.specs.OpenTriples.{ends_after};

use crate::errors::BatchError;
use crate::movements::Movement;
use crate::transfers::expires_at;
use cdc_expiry::{DueIndex, Triple};
use cdc_log::EventLog;
use cdc_types::{Entry, Event, EventKind};
use std::alloc::Global;

/// The log and the index. An entry is added to them after its chain is accepted and not before, since the log can't
/// remove an event.
pub(crate) struct Emitted {
    pub(crate) log: EventLog,
    /// A triple for each pending transfer with a timeout that is neither posted, voided nor expired. The slot of a
    /// triple is the index of the entry.
    pub(crate) index: DueIndex,
}

// By hand, as the drop of a ledger: what drops them calls it.
impl Drop for Emitted {
    fn drop(self) {
        let Emitted { log: _, index: _ } = self;
    }
}

/// Whether the entry's transfer is a pending one with a timeout.
fn opens(entry: &Entry) -> bool
    ensures { result ≡ triples.opens entry.now }
{
    entry.kind == EventKind::TwoPhasePending && entry.transfer.timeout != 0
}

/// Adds the expiry time of the movement's pending transfer to the index, or removes that of the transfer that the
/// movement settles. `place` is the index of the movement's entry.
fn follow_end(index: &mut DueIndex, movement: &Movement, place: usize)
    requires settled { IfSome (settled_transfer movement.now)
        (λ p. filling.expires_at p < 2 ^ 64) }
    requires timely { triples.opens movement.now.entry ≡ true
        → filling.expires_at movement.now.entry.transfer < 2 ^ 64 }
    requires fresh { triples.opens movement.now.entry ≡ true
        → IsNewTimestamp index.old.triples movement.now.entry.transfer.timestamp }
    requires room { triples.opens movement.now.entry ≡ true → 0 < index.old.room }
    ensures triples { index.new.triples
        ≡ ends_after (settled_transfer movement.now) movement.now.entry place index.old.triples }
    ensures room { index.old.room ≤ index.new.room + 1 }
{
    let entry = &movement.entry;
    if let Some(pending) = movement.settled {
        let transfer = pending.transfer;
        let _had_an_end = index.remove(expires_at(&transfer), transfer.timestamp);
    } else if opens(entry) {
        index.add(Triple {
            expires_at: expires_at(&entry.transfer),
            timestamp: entry.transfer.timestamp,
            slot: place,
        });
    }
}

impl Emitted {
    /// An empty log and an empty index.
    pub(crate) fn new(alloc: Global) -> Emitted
        ensures events { result.log.events ≡ [] }
        ensures triples { result.index.triples ≡ set.empty }
    {
        Emitted {
            log: EventLog::new(alloc),
            index: DueIndex::new(alloc),
        }
    }

    /// Reserves memory for `additional` more events.
    pub(crate) fn reserve_events(&mut self, additional: usize) -> Result<(), BatchError>
        ensures events { self.new.log.events ≡ self.old.log.events }
        ensures triples { self.new.index.triples ≡ self.old.index.triples }
        ensures room { OnOk result (additional ≤ self.new.log.room) }
        ensures memory { IfErr result (λ e. e ≡ BatchError.OutOfMemory) }
        ensures needed { OnErr result (0 < additional) }
    {
        self.log.reserve(additional)?;
        Ok(())
    }

    /// Reserves memory for `additional` more events and for as many triples.
    pub(crate) fn reserve(&mut self, additional: usize) -> Result<(), BatchError>
        ensures events { self.new.log.events ≡ self.old.log.events }
        ensures triples { self.new.index.triples ≡ self.old.index.triples }
        ensures room { OnOk result (additional ≤ self.new.log.room) }
        ensures end_room { OnOk result (additional ≤ self.new.index.room) }
        ensures memory { IfErr result (λ e. e ≡ BatchError.OutOfMemory) }
        ensures needed { OnErr result (0 < additional) }
    {
        self.reserve_events(additional)?;
        self.index.reserve(additional)?;
        Ok(())
    }

    /// Logs the movement's entry with this event, and updates the index of expiry times. `place` is the index of the
    /// entry. Memory is reserved in both.
    pub(crate) fn emit(&mut self, movement: &Movement, place: usize, event: Event)
        requires settled { IfSome (settled_transfer movement.now)
            (λ p. filling.expires_at p < 2 ^ 64) }
        requires timely { triples.opens movement.now.entry ≡ true
            → filling.expires_at movement.now.entry.transfer < 2 ^ 64 }
        requires fresh { triples.opens movement.now.entry ≡ true
            → IsNewTimestamp self.old.index.triples movement.now.entry.transfer.timestamp }
        requires later { last_timestamp self.old.log.events < event.timestamp }
        requires room { 0 < self.old.log.room }
        requires end_room { triples.opens movement.now.entry ≡ true → 0 < self.old.index.room }
        ensures events { self.new.log.events ≡ self.old.log.events ++ event ∷ [] }
        ensures triples { self.new.index.triples
            ≡ ends_after (settled_transfer movement.now) movement.now.entry place self.old.index.triples }
        ensures room { self.new.log.room + 1 ≡ self.old.log.room }
        ensures end_room { self.old.index.room ≤ self.new.index.room + 1 }
    {
        follow_end(&mut self.index, movement, place);
        self.log.push(event);
    }
}
