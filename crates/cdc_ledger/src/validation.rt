//! Validation of a request for a transfer: its movement, or the first line that refuses it (TigerBeetle,
//! `create_transfers`).

ghost use Rattle.std.specs.Prelude.{◌≡◌, ◌≤◌, ◌<◌, true, false, None, Some, MatchResult, length, slice_get};
ghost use Rattle.cdc_types.specs.Flags.{is_plain_request};
ghost use Rattle.cdc_types.specs.Lines.{first_line};
ghost use Rattle.cdc_types.specs.Shapes.{transfer_refusal};
ghost use Rattle.cdc_ledger.specs.Events.{accounts_now};
ghost use Rattle.cdc_ledger.specs.Filling as filling;
ghost use Rattle.cdc_ledger.specs.Filling.{stored};
ghost use Rattle.cdc_ledger.specs.Sound.{HasAccounts, IsSound};
ghost use Rattle.cdc_ledger.specs.Movements.{IsValidated, IsPlaced};
ghost use Rattle.cdc_ledger.specs.Verdict.{max_timestamp, known_transfer_lines, transfer_lines};

use crate::movements::{Movement, Pending};
use crate::plain_refusals::refusal_between;
use crate::settling_refusals::{end_refusal, field_refusal};
use crate::tables::Tables;
use crate::transfers::{as_asked, filled_from, is_same_transfer, kind_of};
use cdc_types::{Entry, NewTransfer, Transfer, TransferResult};

impl Tables {
    /// The transfer that is stored for the request at this timestamp.
    fn filled(&self, request: &NewTransfer, timestamp: u64) -> Transfer
        ensures { result ≡ filling.filled self.now.history request.now timestamp }
    {
        if request.is_plain() {
            return as_asked(request, timestamp);
        }
        match self.entry(request.pending_id) {
            Some(entry) => filled_from(&entry.transfer, request, timestamp),
            None => as_asked(request, timestamp),
        }
    }

    /// Why a request is refused if a stored transfer has its id. `None` if none has.
    fn known_refusal(&self, request: &NewTransfer) -> Option<TransferResult>
        ensures { let h = self.now.history in
            result ≡ first_line (known_transfer_lines (stored h request.now.id) h request.now) }
    {
        let entry = self.entry(request.id)?;
        if is_same_transfer(&self.filled(request, entry.timestamp), &entry.transfer) {
            Some(TransferResult::Exists)
        } else {
            Some(TransferResult::ExistsWithDifferentFields)
        }
    }

    /// The movement of a request for a single-phase or a pending transfer, or the first line that refuses it.
    fn validate_plain(
        &self,
        request: &NewTransfer,
        timestamp: u64,
    ) -> Result<Movement, TransferResult>
        requires later { self.now.history.last < timestamp }
        requires within { timestamp ≤ max_timestamp }
        requires shape { transfer_refusal request.now ≡ None }
        requires unknown { let h = self.now.history in
            first_line (known_transfer_lines (stored h request.now.id) h request.now) ≡ None }
        requires plain { is_plain_request request.now ≡ true }
        ensures { let lines = transfer_lines self.now.history request.now timestamp in
            MatchResult result (IsValidated self.now.history request.now timestamp)
            (λ refusal. first_line lines ≡ Some refusal) }
    {
        let accounts = self.accounts();
        let Some(debit) = self.account_place(request.debit_account_id) else {
            return Err(TransferResult::DebitAccountNotFound);
        };
        let Some(credit) = self.account_place(request.credit_account_id) else {
            return Err(TransferResult::CreditAccountNotFound);
        };
        if let Some(refusal) = refusal_between(
            &accounts[debit],
            &accounts[credit],
            request,
            timestamp,
        ) {
            return Err(refusal);
        }
        let entry = Entry {
            timestamp,
            kind: kind_of(request),
            transfer: as_asked(request, timestamp),
        };
        Ok(Movement {
            entry,
            debit,
            credit,
            settled: None,
        })
    }

    /// The movement of an entry that settles this pending transfer. Both accounts of the entry exist.
    pub(crate) fn settling(&self, entry: Entry, pending: Pending) -> Movement
        requires { HasAccounts self.now.history entry }
        ensures entry { result.entry ≡ entry }
        ensures placed { IsPlaced (accounts_now self.now.history) result }
        ensures settled { result.settled ≡ Some pending }
    {
        Movement {
            entry,
            debit: self.account_place(entry.transfer.debit_account_id).unwrap(),
            credit: self
                .account_place(entry.transfer.credit_account_id)
                .unwrap(),
            settled: Some(pending),
        }
    }

    /// The movement of a post or a void, or the first line that refuses it.
    fn validate_settling(
        &self,
        request: &NewTransfer,
        timestamp: u64,
    ) -> Result<Movement, TransferResult>
        requires later { self.now.history.last < timestamp }
        requires within { timestamp ≤ max_timestamp }
        requires shape { transfer_refusal request.now ≡ None }
        requires unknown { let h = self.now.history in
            first_line (known_transfer_lines (stored h request.now.id) h request.now) ≡ None }
        requires settles { is_plain_request request.now ≡ false }
        ensures { let lines = transfer_lines self.now.history request.now timestamp in
            MatchResult result (IsValidated self.now.history request.now timestamp)
            (λ refusal. first_line lines ≡ Some refusal) }
    {
        let entries = self.entries();
        let Some(place) = self.entry_place(request.pending_id) else {
            return Err(TransferResult::PendingTransferNotFound);
        };
        self.validate_named(&entries[place], place, request, timestamp)
    }

    /// The same of a request that names this entry, which has this index.
    fn validate_named(
        &self,
        entry: &Entry,
        place: usize,
        request: &NewTransfer,
        timestamp: u64,
    ) -> Result<Movement, TransferResult>
        requires later { self.now.history.last < timestamp }
        requires within { timestamp ≤ max_timestamp }
        requires shape { transfer_refusal request.now ≡ None }
        requires unknown { let h = self.now.history in
            first_line (known_transfer_lines (stored h request.now.id) h request.now) ≡ None }
        requires settles { is_plain_request request.now ≡ false }
        requires sound { IsSound self.now.history }
        requires inside { place < length self.now.history.entries }
        requires at { slice_get self.now.history.entries place ≡ Some entry.now }
        requires there { stored self.now.history request.now.pending_id ≡ Some entry.now }
        ensures { let lines = transfer_lines self.now.history request.now timestamp in
            MatchResult result (IsValidated self.now.history request.now timestamp)
            (λ refusal. first_line lines ≡ Some refusal) }
    {
        if let Some(refusal) = field_refusal(entry, request) {
            return Err(refusal);
        }
        let transfer = entry.transfer;
        if let Some(refusal) = end_refusal(self.ending(place), &transfer, timestamp) {
            return Err(refusal);
        }
        let entry = Entry {
            timestamp,
            kind: kind_of(request),
            transfer: filled_from(&transfer, request, timestamp),
        };
        Ok(self.settling(entry, Pending { transfer, place }))
    }

    /// The movement of a request for a transfer at this timestamp, or the first line that refuses it.
    pub(crate) fn validate(
        &self,
        request: &NewTransfer,
        timestamp: u64,
    ) -> Result<Movement, TransferResult>
        requires later { self.now.history.last < timestamp }
        requires within { timestamp ≤ max_timestamp }
        ensures { let lines = transfer_lines self.now.history request.now timestamp in
            MatchResult result (IsValidated self.now.history request.now timestamp)
            (λ refusal. first_line lines ≡ Some refusal) }
    {
        if let Some(refusal) = request.check_shape() {
            return Err(refusal);
        }
        if let Some(refusal) = self.known_refusal(request) {
            return Err(refusal);
        }
        if request.is_plain() {
            self.validate_plain(request, timestamp)
        } else {
            self.validate_settling(request, timestamp)
        }
    }
}
