//! The public interface of the ledger.

ghost use Rattle.std.specs.Prelude.{◌≡◌, ◌+◌, ◌≤◌, true, IfSome, option_map};
ghost use Rattle.std.specs.Option.{option_copied};
ghost use Rattle.cdc_types.specs.Widths.{max_128};
ghost use Rattle.cdc_ledger.specs.Answers.{Answers};
ghost use Rattle.cdc_ledger.specs.Balances as sums;
ghost use Rattle.cdc_ledger.specs.Events.{account_now, accounts_now, events};
ghost use Rattle.cdc_ledger.specs.Filling.{stored};
ghost use Rattle.cdc_ledger.specs.History.{empty_history, opened};
ghost use Rattle.cdc_ledger.specs.Balances.{IsBounded};
ghost use Rattle.cdc_ledger.specs.Submit.{IsLegal};
ghost use Rattle.cdc_ledger.specs.Verdict.{max_timestamp};

use crate::emitted::Emitted;
use crate::errors::BatchError;
use crate::tables::Tables;
use cdc_log::EventLog;
use cdc_types::{
    Account, AccountResult, Balances, Batch, BatchResults, Entry, Items, NewAccount, NewTransfer,
    Transfer, TransferResult,
};
use std::alloc::Global;
use std::marker::Model;

/// A ledger: accounts and transfers, accepted in batches, and their events. Contracts see its history: everything
/// that it ever accepted, its last timestamp, and whether it is closed.
pub struct Ledger {
    tables: Tables,
    emitted: Emitted,
}

// Implemented by hand: code that drops a ledger then calls this function instead of repeating the drop of each field.
impl Drop for Ledger {
    fn drop(self) {
        let Ledger {
            tables: _,
            emitted: _,
        } = self;
    }
}

impl Model for Ledger {
    ghost use Rattle.cdc_ledger.specs.History.{History};

    ghost Value = { History };

    ghost use Rattle.cdc_ledger.specs.Submit.{IsLegal};
    ghost use Rattle.cdc_ledger.specs.EmittedHistory.{IsEmitted};

    ghost view = { λ ledger. ledger.tables.history };

    ghost invariant = { λ ledger.
        IsLegal ledger.tables.history × IsEmitted ledger.tables.history ledger.emitted };
}

impl Ledger {
    /// An empty ledger. It doesn't allocate.
    pub fn new(alloc: Global) -> Ledger
        ensures { result ≡ empty_history }
    {
        Ledger {
            tables: Tables::new(alloc),
            emitted: Emitted::new(alloc),
        }
    }

    /// Opens accounts at the timestamp `now`, in nanoseconds, and returns a result for each request, in order
    /// (TigerBeetle, `create_accounts`). The batch is refused as a whole if the ledger is closed, if there are more
    /// than 1,000 requests, if their timestamps would exceed 2^63-1, or if memory runs out; the first of these that
    /// applies is the error. Without requests nothing is allocated.
    pub fn create_accounts(
        &mut self,
        alloc: Global,
        now: u64,
        requests: &[NewAccount],
    ) -> Result<Vec<AccountResult>, BatchError>
        ensures { Answers (λ v. BatchResults.Accounts v.items) self.old
            (Batch.Accounts now requests.now) result self.new }
    {
        self.tables.create_accounts(alloc, now, requests)
    }

    /// Creates transfers at the timestamp `now`, in nanoseconds, and returns a result for each request, in order
    /// (TigerBeetle, `create_transfers`). The batch is refused as a whole for the same reasons as in
    /// `create_accounts`.
    pub fn create_transfers(
        &mut self,
        alloc: Global,
        now: u64,
        requests: &[NewTransfer],
    ) -> Result<Vec<TransferResult>, BatchError>
        ensures { Answers (λ v. BatchResults.Transfers v.items) self.old
            (Batch.Transfers now requests.now) result self.new }
    {
        let emitted = &mut self.emitted;
        self.tables.create_transfers(emitted, alloc, now, requests)
    }

    /// Expires the pending transfers that are due at the timestamp `now`, in nanoseconds, and returns their number,
    /// which has no limit (TigerBeetle, Two-Phase Transfers, `timeout`). The pulse is refused as a whole if the
    /// ledger is closed, if the timestamps would exceed 2^63-1, or if memory runs out; the first of these that
    /// applies is the error. If none is due nothing is allocated.
    pub fn pulse(&mut self, now: u64) -> Result<u64, BatchError>
        ensures { Answers BatchResults.Pulsed self.old (Batch.Pulse now) result self.new }
    {
        self.tables.pulse(&mut self.emitted, now)
    }

    /// Submits a batch of any kind. It calls `create_accounts`, `create_transfers` or `pulse`, and fails if that
    /// does.
    pub fn submit(&mut self, alloc: Global, batch: &Batch) -> Result<BatchResults, BatchError>
        ensures { Answers (λ r. r) self.old batch.now result self.new }
    {
        match batch {
            Batch::Accounts { now, items } => {
                let results = self.create_accounts(alloc, *now, items.as_slice())?;
                Ok(BatchResults::Accounts(Items::from_vec(results)))
            }
            Batch::Transfers { now, items } => {
                let results = self.create_transfers(alloc, *now, items.as_slice())?;
                Ok(BatchResults::Transfers(Items::from_vec(results)))
            }
            Batch::Pulse { now } => Ok(BatchResults::Pulsed(self.pulse(*now)?)),
        }
    }

    /// Closes the ledger: it refuses every later batch. A second call changes nothing.
    pub fn close(&mut self)
        ensures { self.new ≡ record self.old { closed = true } }
    {
        self.tables.close();
    }

    /// Whether the ledger refuses every batch.
    pub fn closed(&self) -> bool
        ensures { result ≡ self.now.closed }
    {
        self.tables.closed()
    }

    /// The accounts in the order in which they were opened, with their current balances.
    pub fn accounts(&self) -> &[Account]
        ensures accounts { result.now ≡ accounts_now self.now }
        ensures bounded { IsBounded self.now }
    {
        self.tables.accounts()
    }

    /// The account of this id with its current balances. `None` if there is none.
    pub fn account(&self, id: u128) -> Option<&Account>
        ensures account { option_copied result
            ≡ option_map (account_now self.now) (opened self.now id) }
        ensures bounded { IsBounded self.now }
    {
        self.tables.account(id)
    }

    /// The current balances of the account of this id. `None` if there is none. On each side the sum of the pending
    /// and the posted balance fits 128 bits.
    pub fn balances(&self, id: u128) -> Option<Balances>
        ensures balances { result
            ≡ option_map (λ _. sums.balances self.now id self.now.last) (opened self.now id) }
        ensures debits { IfSome result (λ b. b.debits_pending + b.debits_posted ≤ max_128) }
        ensures credits { IfSome result (λ b. b.credits_pending + b.credits_posted ≤ max_128) }
    {
        self.account(id).map(|account| account.balances)
    }

    /// The stored transfer of this id. `None` if there is none.
    pub fn transfer(&self, id: u128) -> Option<&Transfer>
        ensures { option_copied result ≡ option_map (λ e. e.transfer) (stored self.now id) }
    {
        self.tables.entry(id).map(|entry| &entry.transfer)
    }

    /// The movements in timestamp order.
    pub fn entries(&self) -> &[Entry]
        ensures { result.now ≡ self.now.entries }
    {
        self.tables.entries()
    }

    /// The last timestamp that the ledger gave out, in nanoseconds; 0 if it gave out none.
    pub fn last(&self) -> u64
        ensures last { result ≡ self.now.last }
        ensures within { self.now.last ≤ max_timestamp }
        ensures legal { IsLegal self.now }
    {
        self.tables.last()
    }

    /// The log of the ledger's events: one for each movement, in order.
    pub fn log(&self) -> &EventLog
        ensures { result.now.events ≡ events self.now }
    {
        &self.emitted.log
    }
}
