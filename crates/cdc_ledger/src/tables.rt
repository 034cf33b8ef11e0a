//! The state of a ledger between two batches.

ghost use Rattle.std.specs.Prelude.{◌≡◌, ◌+◌, ◌<◌, ◌≤◌, true, Some, length, option_map, slice_get, vec_capacity, vec_len, OnErr, OnOk, IfErr};
ghost use Rattle.std.specs.Option.{option_copied};
ghost use Rattle.cdc_ledger.specs.Endings.{ending_of};
ghost use Rattle.cdc_ledger.specs.Events.{account_now, accounts_now};
ghost use Rattle.cdc_ledger.specs.Filling.{stored};
ghost use Rattle.cdc_ledger.specs.History.{empty_history, opened};
ghost use Rattle.cdc_ledger.specs.PlacesById.{account_place, stored_place};
ghost use Rattle.cdc_ledger.specs.Sound.{IsSound};
ghost use Rattle.cdc_ledger.specs.Verdict.{max_timestamp};

use crate::endings::Ending;
use crate::errors::BatchError;
use crate::id_places::IdPlaces;
use cdc_types::{Account, Entry};
use std::alloc::Global;
use std::marker::Model;

/// The accounts with their current balances, the entries, and the last timestamp. Contracts see the history that the
/// tables represent, and the number of accounts and entries that can be added without allocating.
pub(crate) struct Tables {
    pub(crate) accounts: Vec<Account>,
    /// The index of each account in `accounts`, by the account's id.
    pub(crate) account_places: IdPlaces,
    pub(crate) entries: Vec<Entry>,
    /// The index in `entries` of the entry that stored each transfer, by the transfer's id.
    pub(crate) transfer_places: IdPlaces,
    /// How the transfer of each entry ended, at the entry's index.
    pub(crate) endings: Vec<Ending>,
    pub(crate) last: u64,
    pub(crate) closed: bool,
}

// By hand, as the drop of a ledger: what drops the tables calls it.
impl Drop for Tables {
    fn drop(self) {
        let Tables {
            accounts: _,
            account_places: _,
            entries: _,
            transfer_places: _,
            endings: _,
            last: _,
            closed: _,
        } = self;
    }
}

impl Model for Tables {
    ghost use Rattle.cdc_ledger.specs.Contents.{Contents};

    ghost Value = { Contents };

    ghost use Rattle.cdc_ledger.specs.Tables.{contents_of, IsKept};

    ghost view = { contents_of };

    ghost invariant = { IsKept };
}

/// Reserves memory for `additional` more accounts in both.
fn reserve_placed(
    accounts: &mut Vec<Account>,
    places: &mut IdPlaces,
    additional: usize,
) -> Result<(), BatchError>
    ensures accounts { accounts.new.items ≡ accounts.old.items }
    ensures places { places.new.places ≡ places.old.places }
    ensures room { OnOk result (vec_len accounts.new + additional ≤ vec_capacity accounts.new) }
    ensures place_room { OnOk result (additional ≤ places.new.room) }
    ensures memory { IfErr result (λ e. e ≡ BatchError.OutOfMemory) }
    ensures needed { OnErr result (0 < additional) }
{
    places.reserve(additional)?;
    accounts.reserve(additional)?;
    Ok(())
}

/// Reserves memory for `additional` more entries in both.
fn reserve_both(
    entries: &mut Vec<Entry>,
    endings: &mut Vec<Ending>,
    additional: usize,
) -> Result<(), BatchError>
    ensures entries { entries.new.items ≡ entries.old.items }
    ensures endings { endings.new.items ≡ endings.old.items }
    ensures room { OnOk result (vec_len entries.new + additional ≤ vec_capacity entries.new) }
    ensures ending_room { OnOk result (vec_len endings.new + additional ≤ vec_capacity endings.new) }
    ensures memory { IfErr result (λ e. e ≡ BatchError.OutOfMemory) }
    ensures needed { OnErr result (0 < additional) }
{
    entries.reserve(additional)?;
    endings.reserve(additional)?;
    Ok(())
}

impl Tables {
    /// The tables of an empty ledger.
    pub(crate) fn new(alloc: Global) -> Tables
        ensures { result.history ≡ empty_history }
    {
        Tables {
            accounts: Vec::new(alloc),
            account_places: IdPlaces::new(alloc),
            entries: Vec::new(alloc),
            transfer_places: IdPlaces::new(alloc),
            endings: Vec::new(alloc),
            last: 0,
            closed: false,
        }
    }

    /// The accounts in the order in which they were opened, with their current balances.
    pub(crate) fn accounts(&self) -> &[Account]
        ensures accounts { result.now ≡ accounts_now self.now.history }
        ensures sound { IsSound self.now.history }
    {
        self.accounts.as_slice()
    }

    /// The account of this id with its current balances. `None` if there is none.
    pub(crate) fn account(&self, id: u128) -> Option<&Account>
        ensures account { let h = self.now.history in
            option_copied result ≡ option_map (account_now h) (opened h id) }
        ensures sound { IsSound self.now.history }
    {
        let accounts = self.accounts();
        let place = self.account_place(id)?;
        Some(&accounts[place])
    }

    /// The index of the account of this id, from 0. `None` if there is none.
    pub(crate) fn account_place(&self, id: u128) -> Option<usize>
        ensures { result ≡ account_place (accounts_now self.now.history) id }
    {
        self.account_places.find(id)
    }

    /// The entries in timestamp order.
    pub(crate) fn entries(&self) -> &[Entry]
        ensures entries { result.now ≡ self.now.history.entries }
        ensures sound { IsSound self.now.history }
    {
        self.entries.as_slice()
    }

    /// The entry that stored the transfer of this id. `None` if there is none.
    pub(crate) fn entry(&self, id: u128) -> Option<&Entry>
        ensures { option_copied result ≡ stored self.now.history id }
    {
        let place = self.entry_place(id)?;
        Some(&self.entries[place])
    }

    /// The index of the entry that stored the transfer of this id, from 0. `None` if there is none.
    pub(crate) fn entry_place(&self, id: u128) -> Option<usize>
        ensures { result ≡ stored_place self.now.history.entries id }
    {
        self.transfer_places.find(id)
    }

    /// How the transfer of the entry at this index ended.
    pub(crate) fn ending(&self, place: usize) -> Ending
        requires { place < length self.now.history.entries }
        ensures { let entries = self.now.history.entries in
            option_map (ending_of entries) (slice_get entries place) ≡ Some result }
    {
        self.endings[place]
    }

    /// The last timestamp that the ledger gave out; 0 if it gave out none.
    pub(crate) fn last(&self) -> u64
        ensures last { result ≡ self.now.history.last }
        ensures within { self.now.history.last ≤ max_timestamp }
    {
        self.last
    }

    /// Whether the ledger refuses every batch.
    pub(crate) fn closed(&self) -> bool
        ensures { result ≡ self.now.history.closed }
    {
        self.closed
    }

    /// Makes the ledger refuse every later batch.
    pub(crate) fn close(&mut self)
        ensures { self.new.history ≡ record self.old.history { closed = true } }
    {
        self.closed = true;
    }

    /// Reserves memory for `additional` more accounts.
    pub(crate) fn reserve_accounts(&mut self, additional: usize) -> Result<(), BatchError>
        ensures history { self.new.history ≡ self.old.history }
        ensures room { OnOk result (additional ≤ self.new.account_room) }
        ensures memory { IfErr result (λ e. e ≡ BatchError.OutOfMemory) }
        ensures needed { OnErr result (0 < additional) }
    {
        reserve_placed(&mut self.accounts, &mut self.account_places, additional)
    }

    /// Reserves memory for `additional` more entries.
    pub(crate) fn reserve_entries(&mut self, additional: usize) -> Result<(), BatchError>
        ensures history { self.new.history ≡ self.old.history }
        ensures room { OnOk result (additional ≤ self.new.entry_room) }
        ensures memory { IfErr result (λ e. e ≡ BatchError.OutOfMemory) }
        ensures needed { OnErr result (0 < additional) }
    {
        reserve_both(&mut self.entries, &mut self.endings, additional)
    }

    /// Reserves memory for `additional` more transfers: for their entries and for the map from ids to indices.
    pub(crate) fn reserve_transfers(&mut self, additional: usize) -> Result<(), BatchError>
        ensures history { self.new.history ≡ self.old.history }
        ensures room { OnOk result (additional ≤ self.new.entry_room) }
        ensures place_room { OnOk result (additional ≤ self.new.place_room) }
        ensures memory { IfErr result (λ e. e ≡ BatchError.OutOfMemory) }
        ensures needed { OnErr result (0 < additional) }
    {
        self.reserve_entries(additional)?;
        self.transfer_places.reserve(additional)?;
        Ok(())
    }
}
