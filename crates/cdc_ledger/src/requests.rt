//! Requests for accounts and transfers, recorded chain by chain.

ghost use Rattle.std.specs.Prelude.{◌≡◌, ◌+◌, ◌≤◌, ◌<◌, ◌++◌, [], ◌∷◌, true, false, All, is_ok, is_some, length, take, vec_capacity, vec_len, if◌then◌else◌};
ghost use Rattle.std.specs.List.{AllByRecursion};
ghost use Rattle.cdc_types.specs.Flags.{is_linked_transfer};
ghost use Rattle.cdc_types.specs.Lines.{first_line};
ghost use Rattle.cdc_ledger.specs.Chains.{history_after, played, refused_in_chain};
ghost use Rattle.cdc_ledger.specs.Changes.{with_account};
ghost use Rattle.cdc_ledger.specs.Fits.{NewAccountFits, NewTransferFits};
ghost use Rattle.cdc_ledger.specs.Recorded.{AreRecorded, grown};
ghost use Rattle.cdc_ledger.specs.Sound.{IsSound};
ghost use Rattle.cdc_ledger.specs.Stops.{IsValidatedInChain, IsStopped, validated_count, stop_parts};
ghost use Rattle.cdc_ledger.specs.Submit.{account_rules, accounts_from, opened_by, transfer_rules, transfers_from};
ghost use Rattle.cdc_ledger.specs.EmittedHistory.{IsEmitted};
ghost use Rattle.cdc_ledger.specs.Verdict.{max_timestamp, account_lines};

use crate::accounts::is_same_account;
use crate::chains::{
    Stop, account_chain_len, push_times, push_unvalidated_accounts, push_unvalidated_transfers,
    transfer_chain_len,
};
use crate::emitted::Emitted;
use crate::recording::Recorded;
use crate::tables::Tables;
use cdc_types::{AccountResult, NewAccount, NewTransfer, TransferResult};

impl Tables {
    /// The refusal of the first line that applies to the request. `None` if no line applies.
    fn account_refusal(&self, request: &NewAccount) -> Option<AccountResult>
        ensures { result ≡ first_line (account_lines self.now.history request.now) }
    {
        if let Some(refusal) = request.check() {
            return Some(refusal);
        }
        match self.account(request.id) {
            Some(account) if is_same_account(account, request) => Some(AccountResult::Exists),
            Some(_) => Some(AccountResult::ExistsWithDifferentFields),
            None => None,
        }
    }

    /// Validates a request of a chain, and opens its account unless it is refused. Returns the refusal, or `None`.
    /// Memory is reserved for the account.
    fn open_for_chain(
        &mut self,
        request: NewAccount,
        is_last: bool,
        timestamp: u64,
    ) -> Option<AccountResult>
        requires later { self.old.history.last < timestamp }
        requires within { timestamp ≤ max_timestamp }
        requires room { 0 < self.old.account_room }
        ensures refused { result ≡ refused_in_chain account_rules self.old.history request is_last timestamp }
        ensures history { self.new.history ≡ (if is_some result then self.old.history
            else with_account self.old.history (opened_by request timestamp)) }
        ensures sound { IsSound self.old.history }
        ensures fits { NewAccountFits request }
        ensures room { self.old.account_room ≤ self.new.account_room + 1 }
    {
        let _before = self.accounts();
        if request.is_linked() && is_last {
            return Some(AccountResult::LinkedEventChainOpen);
        }
        let refusal = self.account_refusal(&request);
        if refusal.is_none() {
            self.open_account(&request, timestamp);
        }
        refusal
    }

    /// Opens the accounts of a chain until a request is refused. Their timestamps start at `time`.
    fn open_chain(&mut self, time: u64, chain: &[NewAccount]) -> Option<Stop<AccountResult>>
        requires later { self.old.history.last < time }
        requires within { time + length chain.now ≤ max_timestamp + 1 }
        requires room { length chain.now ≤ self.old.account_room }
        ensures stopped { IsStopped account_rules self.old.history time chain.now
            (stop_parts result) self.new.history }
        ensures fit { AllByRecursion NewAccountFits (take (validated_count (stop_parts result) chain.now) chain.now) }
        ensures room { self.old.account_room ≤ self.new.account_room + length chain.now }
    {
        for (place, request) in chain.iter().enumerate() {
            let is_last = place + 1 == chain.len();
            if let Some(refusal) = self.open_for_chain(*request, is_last, time + place as u64) {
                return Some(Stop { place, refusal });
            }
        }
        None
    }

    /// Opens all accounts of a chain, or none of them if a request is refused. Their timestamps start at `time`,
    /// and memory is reserved for them.
    fn take_account_chain(
        &mut self,
        time: u64,
        chain: &[NewAccount],
        results: &mut Vec<AccountResult>,
    )
        requires later { self.old.history.last < time }
        requires within { time + length chain.now ≤ max_timestamp + 1 }
        requires some { 0 < length chain.now }
        requires room { length chain.now ≤ self.old.account_room }
        requires results_room { vec_len results.old + length chain.now ≤ vec_capacity results.old }
        ensures results { results.new.items ≡ results.old.items
            ++ (played account_rules self.old.history time chain.now).0 }
        ensures history { self.new.history ≡ history_after account_rules self.old.history time chain.now }
        ensures fit { AllByRecursion NewAccountFits chain.now }
        ensures len { vec_len results.new ≡ vec_len results.old + length chain.now }
        ensures capacity { vec_capacity results.new ≡ vec_capacity results.old }
        ensures room { self.old.account_room ≤ self.new.account_room + length chain.now }
    {
        let _accounts = self.accounts();
        let before = self.last();
        match self.open_chain(time, chain) {
            None => push_times(results, AccountResult::Accepted, chain.len()),
            Some(stop) => {
                for place in (0..stop.place).rev() {
                    let last = if place == 0 {
                        before
                    } else {
                        time + place as u64 - 1
                    };
                    self.take_account_back(last);
                }
                self.take_timestamp(time + (chain.len() as u64 - 1));
                push_times(results, AccountResult::LinkedEventFailed, stop.place);
                results.push_reserved(stop.refusal);
                push_unvalidated_accounts(results, &chain[stop.place + 1..]);
            }
        }
    }

    /// Processes all chains of a batch of requests for accounts. Their timestamps start at `base`, and memory is
    /// reserved for the accounts.
    pub(crate) fn take_accounts(
        &mut self,
        base: u64,
        requests: &[NewAccount],
        mut results: Vec<AccountResult>,
    ) -> Vec<AccountResult>
        requires later { self.old.history.last < base }
        requires within { 0 < length requests.now → base + length requests.now ≤ max_timestamp + 1 }
        requires room { length requests.now ≤ self.old.account_room }
        requires empty { results.items ≡ [] }
        requires results_room { length requests.now ≤ vec_capacity results }
        ensures answers { accounts_from self.old.history base requests.now ≡ (result.items, self.new.history) }
        ensures fit { AllByRecursion NewAccountFits requests.now }
    {
        let mut place = 0;
        while place < requests.len() {
            let end = place + account_chain_len(&requests[place..]);
            self.take_account_chain(base + place as u64, &requests[place..end], &mut results);
            place = end;
        }
        results
    }

    /// Processes a request for a transfer that is a chain by itself. Memory is reserved for its entry.
    fn take_transfer(
        &mut self,
        emitted: &mut Emitted,
        request: NewTransfer,
        timestamp: u64,
    ) -> TransferResult
        requires unlinked { is_linked_transfer request ≡ false }
        requires later { self.old.history.last < timestamp }
        requires within { timestamp ≤ max_timestamp }
        requires room { 0 < self.old.entry_room }
        requires place_room { 0 < self.old.place_room }
        requires log_room { 0 < emitted.old.log.room }
        requires end_room { 0 < emitted.old.index.room }
        requires emitted { IsEmitted self.old.history emitted.old }
        ensures played { (played transfer_rules self.old.history timestamp (request ∷ [])).0 ≡ result ∷ [] }
        ensures history { self.new.history ≡ history_after transfer_rules self.old.history timestamp (request ∷ []) }
        ensures fits { NewTransferFits request }
        ensures emitted { IsEmitted self.new.history emitted.new }
        ensures room { self.old.entry_room ≤ self.new.entry_room + 1 }
        ensures place_room { self.old.place_room ≤ self.new.place_room + 1 }
        ensures log_room { emitted.old.log.room ≤ emitted.new.log.room + 1 }
        ensures end_room { emitted.old.index.room ≤ emitted.new.index.room + 1 }
    {
        match self.validate(&request, timestamp) {
            Err(refusal) => {
                let _before = self.accounts();
                self.take_timestamp(timestamp);
                refusal
            }
            Ok(movement) => {
                self.take(emitted, &movement);
                TransferResult::Accepted
            }
        }
    }

    /// Validates a request of a chain, and records its entry unless it is refused. Memory is reserved for the entry.
    fn record_linked(
        &mut self,
        request: NewTransfer,
        is_last: bool,
        timestamp: u64,
    ) -> Result<Recorded, TransferResult>
        requires later { self.old.history.last < timestamp }
        requires within { timestamp ≤ max_timestamp }
        requires room { 0 < self.old.entry_room }
        requires place_room { 0 < self.old.place_room }
        ensures validated { IsValidatedInChain self.old.history request is_last timestamp result self.new.history }
        ensures fits { NewTransferFits request }
        ensures room { self.old.entry_room ≡ self.new.entry_room + (if is_ok result then 1 else 0) }
        ensures place_room { self.old.place_room ≤ self.new.place_room + 1 }
    {
        if request.is_linked() && is_last {
            return Err(TransferResult::LinkedEventChainOpen);
        }
        let movement = self.validate(&request, timestamp)?;
        Ok(self.record_for_chain(&movement))
    }

    /// Records the entries of a chain until a request is refused, and collects them in `tail`. Their timestamps start
    /// at `time`, and memory is reserved for them.
    fn record_chain(
        &mut self,
        time: u64,
        chain: &[NewTransfer],
        tail: &mut Vec<Recorded>,
    ) -> Option<Stop<TransferResult>>
        requires later { self.old.history.last < time }
        requires within { time + length chain.now ≤ max_timestamp + 1 }
        requires room { length chain.now ≤ self.old.entry_room }
        requires place_room { length chain.now ≤ self.old.place_room }
        requires empty { tail.old.items ≡ [] }
        requires tail_room { length chain.now ≤ vec_capacity tail.old }
        ensures stopped { IsStopped transfer_rules self.old.history time chain.now
            (stop_parts result) self.new.history }
        ensures grown { self.new.history ≡ grown self.old.history tail.new.items }
        ensures recorded { AreRecorded self.old.history tail.new.items }
        ensures fit { AllByRecursion NewTransferFits (take (validated_count (stop_parts result) chain.now) chain.now) }
        ensures tail_len { vec_len tail.new ≤ length chain.now }
        ensures capacity { vec_capacity tail.new ≡ vec_capacity tail.old }
        ensures room { self.old.entry_room ≡ self.new.entry_room + vec_len tail.new }
        ensures place_room { self.old.place_room ≤ self.new.place_room + length chain.now }
    {
        for (place, request) in chain.iter().enumerate() {
            let is_last = place + 1 == chain.len();
            match self.record_linked(*request, is_last, time + place as u64) {
                Ok(recorded) => tail.push_reserved(recorded),
                Err(refusal) => return Some(Stop { place, refusal }),
            }
        }
        None
    }

    /// Creates all transfers of a chain, or none of them if a request is refused. Their timestamps start at `time`,
    /// and memory is reserved for them.
    fn take_transfer_chain(
        &mut self,
        emitted: &mut Emitted,
        time: u64,
        chain: &[NewTransfer],
        tail: &mut Vec<Recorded>,
        results: &mut Vec<TransferResult>,
    )
        requires later { self.old.history.last < time }
        requires within { time + length chain.now ≤ max_timestamp + 1 }
        requires some { 0 < length chain.now }
        requires room { length chain.now ≤ self.old.entry_room }
        requires place_room { length chain.now ≤ self.old.place_room }
        requires log_room { length chain.now ≤ emitted.old.log.room }
        requires end_room { length chain.now ≤ emitted.old.index.room }
        requires emitted { IsEmitted self.old.history emitted.old }
        requires empty { tail.old.items ≡ [] }
        requires tail_room { length chain.now ≤ vec_capacity tail.old }
        requires results_room { vec_len results.old + length chain.now ≤ vec_capacity results.old }
        ensures results { results.new.items ≡ results.old.items
            ++ (played transfer_rules self.old.history time chain.now).0 }
        ensures history { self.new.history ≡ history_after transfer_rules self.old.history time chain.now }
        ensures fit { AllByRecursion NewTransferFits chain.now }
        ensures emitted { IsEmitted self.new.history emitted.new }
        ensures len { vec_len results.new ≡ vec_len results.old + length chain.now }
        ensures capacity { vec_capacity results.new ≡ vec_capacity results.old }
        ensures emptied { tail.new.items ≡ [] }
        ensures tail_capacity { vec_capacity tail.new ≡ vec_capacity tail.old }
        ensures room { self.old.entry_room ≤ self.new.entry_room + length chain.now }
        ensures place_room { self.old.place_room ≤ self.new.place_room + length chain.now }
        ensures log_room { emitted.old.log.room ≤ emitted.new.log.room + length chain.now }
        ensures end_room { emitted.old.index.room ≤ emitted.new.index.room + length chain.now }
    {
        let _accounts = self.accounts();
        match self.record_chain(time, chain, tail) {
            None => {
                for recorded in tail.as_slice() {
                    emitted.emit(&recorded.movement, recorded.place, recorded.event);
                }
                tail.clear();
                push_times(results, TransferResult::Accepted, chain.len());
            }
            Some(stop) => {
                while let Some(recorded) = tail.pop() {
                    self.take_back(&recorded);
                }
                self.take_timestamp(time + (chain.len() as u64 - 1));
                push_times(results, TransferResult::LinkedEventFailed, stop.place);
                results.push_reserved(stop.refusal);
                push_unvalidated_transfers(results, &chain[stop.place + 1..]);
            }
        }
    }

    /// Processes all chains of a batch of requests for transfers. Their timestamps start at `base`, and memory is
    /// reserved for the entries.
    pub(crate) fn take_transfers(
        &mut self,
        emitted: &mut Emitted,
        base: u64,
        requests: &[NewTransfer],
        mut tail: Vec<Recorded>,
        mut results: Vec<TransferResult>,
    ) -> Vec<TransferResult>
        requires later { self.old.history.last < base }
        requires within { 0 < length requests.now → base + length requests.now ≤ max_timestamp + 1 }
        requires room { length requests.now ≤ self.old.entry_room }
        requires place_room { length requests.now ≤ self.old.place_room }
        requires log_room { length requests.now ≤ emitted.old.log.room }
        requires end_room { length requests.now ≤ emitted.old.index.room }
        requires emitted { IsEmitted self.old.history emitted.old }
        requires no_tail { tail.items ≡ [] }
        requires tail_room { All (λ r. is_linked_transfer r ≡ true
            → length requests.now ≤ vec_capacity tail) requests.now }
        requires empty { results.items ≡ [] }
        requires results_room { length requests.now ≤ vec_capacity results }
        ensures answers { transfers_from self.old.history base requests.now ≡ (result.items, self.new.history) }
        ensures emitted { IsEmitted self.new.history emitted.new }
        ensures fit { AllByRecursion NewTransferFits requests.now }
    {
        let mut place = 0;
        while place < requests.len() {
            let request = requests[place];
            if request.is_linked() {
                let end = place + transfer_chain_len(&requests[place..]);
                self.take_transfer_chain(
                    emitted,
                    base + place as u64,
                    &requests[place..end],
                    &mut tail,
                    &mut results,
                );
                place = end;
            } else {
                results.push_reserved(self.take_transfer(emitted, request, base + place as u64));
                place += 1;
            }
        }
        results
    }
}
