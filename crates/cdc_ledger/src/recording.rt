//! The changes of the tables: taking a timestamp, adding an account or an entry, and reverting the last one that was
//! added.

ghost use Rattle.std.specs.Prelude.{◌≡◌, ◌+◌, ◌≤◌, ◌<◌, ◌==◌, ◌&&◌, ℕ, true, None, Some, length, slice_set, if◌then◌else◌};
ghost use Rattle.cdc_ledger.specs.Changes.{pushed, with_account, timed};
ghost use Rattle.cdc_ledger.specs.Events.{event_of};
ghost use Rattle.cdc_ledger.specs.EmittedHistory.{IsEmitted};
ghost use Rattle.cdc_ledger.specs.Follows.{Follows};
ghost use Rattle.cdc_ledger.specs.History.{opened};
ghost use Rattle.cdc_ledger.specs.Kinds as kinds;
ghost use Rattle.cdc_ledger.specs.Movements.{IsMovement};
ghost use Rattle.cdc_ledger.specs.OpenTriples.{opens};
ghost use Rattle.cdc_ledger.specs.PlacesById.{place_of};
ghost use Rattle.cdc_ledger.specs.Recorded.{IsLastOpened, IsLastRecorded, IsRecorded, without_account, without_entry};
ghost use Rattle.cdc_ledger.specs.Sound.{IsSound};
ghost use Rattle.cdc_ledger.specs.Submit.{opened_by};
ghost use Rattle.cdc_ledger.specs.Verdict.{max_timestamp};

use crate::accounts::opened_account;
use crate::emitted::Emitted;
use crate::endings::{follow_ending, forget_ending};
use crate::id_places::IdPlaces;
use crate::movements::Movement;
use crate::tables::Tables;
use crate::transfers::stores;
use cdc_types::{Account, Entry, Event, NewAccount};

/// An entry that was recorded, with its event, and with the state that is needed to revert it.
#[derive(Clone, Copy)]
pub(crate) struct Recorded {
    pub(crate) movement: Movement,
    /// The index of the entry, from 0.
    pub(crate) place: usize,
    pub(crate) event: Event,
    /// The last timestamp before the entry.
    last: u64,
    /// The debited account before the entry.
    debit: Account,
    /// The credited account before the entry.
    credit: Account,
}

impl Recorded {
    /// Restores the two accounts to their state before the entry.
    fn restore(&self, accounts: &mut [Account])
        requires debit { self.now.movement.debit < length accounts.old }
        requires credit { self.now.movement.credit < length accounts.old }
        ensures { accounts.new ≡ slice_set
            (slice_set accounts.old self.now.movement.debit self.now.debit)
            self.now.movement.credit self.now.credit }
    {
        accounts[self.movement.debit] = self.debit;
        accounts[self.movement.credit] = self.credit;
    }
}

/// Maps the id of the entry's transfer to the entry's index, if the entry stores its transfer.
fn keep_place(places: &mut IdPlaces, entry: &Entry, place: usize)
    requires { kinds.stores entry.now.kind ≡ true → 0 < places.old.room }
    ensures places { (id : ℕ) → place_of places.new id
        ≡ (if kinds.stores entry.now.kind && (entry.now.transfer.id == id) then Some place
        else place_of places.old id) }
    ensures room { places.old.room ≤ places.new.room + 1 }
{
    if stores(entry.kind) {
        places.add(entry.transfer.id, place);
    }
}

/// Removes the id of the entry's transfer from the map, if the entry stored its transfer.
fn forget_place(places: &mut IdPlaces, entry: &Entry)
    ensures places { (id : ℕ) → place_of places.new id
        ≡ (if kinds.stores entry.now.kind && (entry.now.transfer.id == id) then None
        else place_of places.old id) }
    ensures room { places.new.room ≡ places.old.room }
{
    if stores(entry.kind) {
        places.remove(entry.transfer.id);
    }
}

impl Tables {
    /// Uses up this timestamp and changes nothing else.
    pub(crate) fn take_timestamp(&mut self, timestamp: u64)
        requires later { self.old.history.last ≤ timestamp }
        requires within { timestamp ≤ max_timestamp }
        ensures { self.new ≡ record self.old { history = timed self.old.history timestamp } }
    {
        self.last = timestamp;
    }

    /// Opens the requested account. No account has its id, and memory is reserved for it.
    pub(crate) fn open_account(&mut self, request: &NewAccount, timestamp: u64)
        requires later { self.old.history.last ≤ timestamp }
        requires within { timestamp ≤ max_timestamp }
        requires free { opened self.old.history request.now.id ≡ None }
        requires room { 0 < self.old.account_room }
        ensures history { self.new.history
            ≡ with_account self.old.history (opened_by request.now timestamp) }
        ensures room { self.new.account_room + 1 ≡ self.old.account_room }
    {
        let place = self.accounts.len();
        self.account_places.add(request.id, place);
        self.accounts
            .push_reserved(opened_account(request, timestamp));
        self.last = timestamp;
    }

    /// Removes the last account again. `last` is the last timestamp before that account.
    pub(crate) fn take_account_back(&mut self, last: u64)
        requires { IsLastOpened self.old.history last }
        ensures history { self.new.history ≡ without_account self.old.history last }
        ensures room { self.old.account_room ≤ self.new.account_room }
    {
        let account = self.accounts.pop().unwrap();
        self.account_places.remove(account.id);
        self.last = last;
    }

    /// Records the movement's entry and returns its event. Memory is reserved for it.
    pub(crate) fn record(&mut self, movement: &Movement) -> Event
        requires later { self.old.history.last < movement.now.entry.timestamp }
        requires within { movement.now.entry.timestamp ≤ max_timestamp }
        requires follows { Follows self.old.history movement.now.entry }
        requires movement { IsMovement self.old.history movement.now }
        requires room { 0 < self.old.entry_room }
        requires place_room { kinds.stores movement.now.entry.kind ≡ true
            → 0 < self.old.place_room }
        ensures sound { IsSound self.old.history }
        ensures history { self.new.history ≡ pushed self.old.history movement.now.entry }
        ensures event { result
            ≡ event_of (pushed self.old.history movement.now.entry) movement.now.entry }
        ensures room { self.new.entry_room + 1 ≡ self.old.entry_room }
        ensures place_room { self.old.place_room ≤ self.new.place_room + 1 }
    {
        let place = self.entries.len();
        keep_place(&mut self.transfer_places, &movement.entry, place);
        follow_ending(&mut self.endings, movement);
        movement.apply(self.accounts.as_mut_slice());
        let event = movement.event(self.accounts.as_slice());
        self.entries.push_reserved(movement.entry);
        self.last = movement.entry.timestamp;
        event
    }

    /// Records the movement's entry, logs its event, and updates the index of expiry times. Memory is reserved for it.
    pub(crate) fn take(&mut self, emitted: &mut Emitted, movement: &Movement)
        requires emitted { IsEmitted self.old.history emitted.old }
        requires later { self.old.history.last < movement.now.entry.timestamp }
        requires within { movement.now.entry.timestamp ≤ max_timestamp }
        requires follows { Follows self.old.history movement.now.entry }
        requires movement { IsMovement self.old.history movement.now }
        requires room { 0 < self.old.entry_room }
        requires place_room { kinds.stores movement.now.entry.kind ≡ true
            → 0 < self.old.place_room }
        requires log_room { 0 < emitted.old.log.room }
        requires end_room { opens movement.now.entry ≡ true → 0 < emitted.old.index.room }
        ensures history { self.new.history ≡ pushed self.old.history movement.now.entry }
        ensures emitted { IsEmitted self.new.history emitted.new }
        ensures room { self.new.entry_room + 1 ≡ self.old.entry_room }
        ensures place_room { self.old.place_room ≤ self.new.place_room + 1 }
        ensures log_room { emitted.new.log.room + 1 ≡ emitted.old.log.room }
        ensures end_room { emitted.old.index.room ≤ emitted.new.index.room + 1 }
    {
        let place = self.entries().len();
        let event = self.record(movement);
        emitted.emit(movement, place, event);
    }

    /// Records the movement's entry and returns what is needed to log it or to revert it. Memory is reserved for it.
    pub(crate) fn record_for_chain(&mut self, movement: &Movement) -> Recorded
        requires later { self.old.history.last < movement.now.entry.timestamp }
        requires within { movement.now.entry.timestamp ≤ max_timestamp }
        requires follows { Follows self.old.history movement.now.entry }
        requires movement { IsMovement self.old.history movement.now }
        requires room { 0 < self.old.entry_room }
        requires place_room { 0 < self.old.place_room }
        ensures recorded { IsRecorded self.old.history result }
        ensures movement { result.movement ≡ movement.now }
        ensures history { self.new.history ≡ pushed self.old.history movement.now.entry }
        ensures room { self.new.entry_room + 1 ≡ self.old.entry_room }
        ensures place_room { self.old.place_room ≤ self.new.place_room + 1 }
    {
        let accounts = self.accounts();
        let debit = accounts[movement.debit];
        let credit = accounts[movement.credit];
        let place = self.entries().len();
        let last = self.last();
        Recorded {
            movement: *movement,
            place,
            event: self.record(movement),
            last,
            debit,
            credit,
        }
    }

    /// Removes the last entry and reverts its effects.
    pub(crate) fn take_back(&mut self, recorded: &Recorded)
        requires { IsLastRecorded self.old.history recorded.now }
        ensures history { self.new.history
            ≡ without_entry self.old.history recorded.now.last }
        ensures room { self.new.entry_room ≡ self.old.entry_room + 1 }
        ensures place_room { self.new.place_room ≡ self.old.place_room }
    {
        let _entry = self.entries.pop();
        forget_place(&mut self.transfer_places, &recorded.movement.entry);
        forget_ending(&mut self.endings, &recorded.movement);
        recorded.restore(self.accounts.as_mut_slice());
        self.last = recorded.last;
    }
}
