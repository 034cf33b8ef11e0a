//! Whole batches: their first timestamp, the reasons to refuse one, and the results of an accepted one.

ghost use Rattle.std.specs.Prelude.{◌≡◌, nat_lt, OnOk};
ghost use Rattle.cdc_ledger.specs.Answers.{Answers};
ghost use Rattle.cdc_ledger.specs.Fits.{BatchFits};
ghost use Rattle.cdc_ledger.specs.Submit.{base as first_timestamp, refusal_at};
ghost use Rattle.cdc_ledger.specs.EmittedHistory.{IsEmitted};

use crate::chains::tail_len;
use crate::emitted::Emitted;
use crate::errors::BatchError;
use crate::tables::Tables;
use cdc_types::{
    AccountResult, Batch, BatchResults, Limits, NewAccount, NewTransfer, TransferResult,
};
use std::alloc::Global;

impl Tables {
    /// The timestamp of the first item of a batch that is submitted at `now`.
    pub(crate) fn base(&self, now: u64) -> u64
        ensures { result ≡ first_timestamp self.now.history now }
    {
        now.max(self.last() + 1)
    }

    /// Why a batch of `items` items that is submitted at `now` is refused as a whole. `None` if it isn't.
    pub(crate) fn batch_refusal(
        &self,
        too_large: bool,
        now: u64,
        items: usize,
    ) -> Option<BatchError>
        ensures { result ≡ refusal_at self.now.history too_large now items }
    {
        if self.closed() {
            Some(BatchError::LedgerClosed)
        } else if too_large {
            Some(BatchError::BatchTooLarge)
        } else if items > 0 && self.base(now).saturating_add(items as u64 - 1) > Limits::TIMESTAMP {
            Some(BatchError::TimestampsExhausted)
        } else {
            None
        }
    }

    /// Why a batch of `items` requests that is submitted at `now` is refused as a whole. `None` if it isn't.
    fn items_refusal(&self, now: u64, items: usize) -> Option<BatchError>
        ensures { result ≡ refusal_at self.now.history (nat_lt Limits.BATCH_ITEMS items) now items }
    {
        self.batch_refusal(items > Limits::BATCH_ITEMS, now, items)
    }

    /// Accepts a batch of requests for accounts, or refuses it as a whole.
    pub(crate) fn create_accounts(
        &mut self,
        alloc: Global,
        now: u64,
        requests: &[NewAccount],
    ) -> Result<Vec<AccountResult>, BatchError>
        ensures answers { Answers (λ v. BatchResults.Accounts v.items) self.old.history
            (Batch.Accounts now requests.now) result self.new.history }
        ensures fit { OnOk result (BatchFits (Batch.Accounts now requests.now)) }
    {
        if let Some(refusal) = self.items_refusal(now, requests.len()) {
            return Err(refusal);
        }
        self.reserve_accounts(requests.len())?;
        let results = Vec::with_capacity(alloc, requests.len())?;
        let base = self.base(now);
        Ok(self.take_accounts(base, requests, results))
    }

    /// Accepts a batch of requests for transfers, or refuses it as a whole.
    pub(crate) fn create_transfers(
        &mut self,
        emitted: &mut Emitted,
        alloc: Global,
        now: u64,
        requests: &[NewTransfer],
    ) -> Result<Vec<TransferResult>, BatchError>
        requires { IsEmitted self.old.history emitted.old }
        ensures answers { Answers (λ v. BatchResults.Transfers v.items) self.old.history
            (Batch.Transfers now requests.now) result self.new.history }
        ensures emitted { IsEmitted self.new.history emitted.new }
        ensures fit { OnOk result (BatchFits (Batch.Transfers now requests.now)) }
    {
        if let Some(refusal) = self.items_refusal(now, requests.len()) {
            return Err(refusal);
        }
        self.reserve_transfers(requests.len())?;
        emitted.reserve(requests.len())?;
        let results = Vec::with_capacity(alloc, requests.len())?;
        let tail = Vec::with_capacity(alloc, tail_len(requests))?;
        let base = self.base(now);
        Ok(self.take_transfers(emitted, base, requests, tail, results))
    }
}
