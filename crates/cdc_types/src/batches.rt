//! Batches that clients submit to the ledger, and their results.

ghost use Rattle.std.specs.Prelude.{◌≡◌, IfOk};

use crate::accounts::NewAccount;
use crate::results::{AccountResult, TransferResult};
use crate::transfers::NewTransfer;
use std::alloc::{AllocError, Global};
use std::marker::Model;

/// A list of plain items inside a batch or its results. Contracts see the list.
#[derive(Drop)]
pub struct Items<T> {
    items: Vec<T>,
}

impl<T> Model for Items<T> {
    ghost use Rattle.std.specs.Prelude.{List};

    ghost Value = { List T };

    ghost view = { λ list. list.items.items };
}

impl<T> Items<T> {
    /// Takes over a `Vec` without allocating.
    pub fn from_vec(list: Vec<T>) -> Items<T>
        ensures { result ≡ list.items }
    {
        Items { items: list }
    }

    /// Gives the `Vec` back without allocating.
    pub fn into_vec(self) -> Vec<T>
        ensures { result.items ≡ self }
    {
        let Items { items } = self;
        items
    }

    pub fn as_slice(&self) -> &[T]
        ensures { result.now ≡ self.now }
    {
        self.items.as_slice()
    }
}

impl<T: Copy> Items<T> {
    /// An equal list in memory of its own. The error is out of memory.
    pub fn try_copy(&self, alloc: Global) -> Result<Items<T>, AllocError>
        ensures { IfOk result (λ copy. copy ≡ self.now) }
    {
        Ok(Items {
            items: Vec::from_slice(alloc, self.items.as_slice())?,
        })
    }
}

/// What a client submits to the ledger in one call. `now` is in nanoseconds: the batch's timestamps start at `now`,
/// or right after the ledger's last timestamp if that is later.
#[derive(Drop)]
pub enum Batch {
    /// Creates accounts.
    Accounts { now: u64, items: Items<NewAccount> },
    /// Creates transfers.
    Transfers { now: u64, items: Items<NewTransfer> },
    /// Expires the pending transfers that are due at `now`.
    Pulse { now: u64 },
}

/// The ledger's reply to a batch that it accepts.
#[derive(Drop)]
pub enum BatchResults {
    /// One result for each requested account, in the batch's order.
    Accounts(Items<AccountResult>),
    /// One result for each requested transfer, in the batch's order.
    Transfers(Items<TransferResult>),
    /// The number of pending transfers that expired.
    Pulsed(u64),
}

impl Batch {
    /// An equal batch in memory of its own. The error is out of memory.
    pub fn try_copy(&self, alloc: Global) -> Result<Batch, AllocError>
        ensures { IfOk result (λ copy. copy ≡ self.now) }
    {
        match self {
            Batch::Accounts { now, items } => Ok(Batch::Accounts {
                now: *now,
                items: items.try_copy(alloc)?,
            }),
            Batch::Transfers { now, items } => Ok(Batch::Transfers {
                now: *now,
                items: items.try_copy(alloc)?,
            }),
            Batch::Pulse { now } => Ok(Batch::Pulse { now: *now }),
        }
    }
}

impl BatchResults {
    /// Equal results in memory of their own. The error is out of memory.
    pub fn try_copy(&self, alloc: Global) -> Result<BatchResults, AllocError>
        ensures { IfOk result (λ copy. copy ≡ self.now) }
    {
        match self {
            BatchResults::Accounts(items) => Ok(BatchResults::Accounts(items.try_copy(alloc)?)),
            BatchResults::Transfers(items) => Ok(BatchResults::Transfers(items.try_copy(alloc)?)),
            BatchResults::Pulsed(count) => Ok(BatchResults::Pulsed(*count)),
        }
    }
}
