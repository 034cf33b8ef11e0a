//! Chains of linked requests: their length, and the results of a chain that fails.

ghost use Rattle.std.specs.Prelude.{◌≡◌, ◌+◌, ◌≤◌, ◌<◌, ◌++◌, ◌∷◌, true, All, drop, length, replicate, take, vec_capacity, vec_len};
ghost use Rattle.std.specs.List.{AllByRecursion};
ghost use Rattle.cdc_types.specs.Flags.{is_linked_account, is_linked_transfer};
ghost use Rattle.cdc_ledger.specs.Chains.{chains_of, unvalidated, unvalidated_one};
ghost use Rattle.cdc_ledger.specs.Fits.{NewAccountFits, NewTransferFits};
ghost use Rattle.cdc_ledger.specs.Submit.{account_rules, transfer_rules};

use cdc_types::{AccountResult, NewAccount, NewTransfer, TransferResult};

/// The item at which a chain failed: its index in the chain, from 0, and why it was refused.
#[derive(Clone, Copy)]
pub(crate) struct Stop<R> {
    pub(crate) place: usize,
    pub(crate) refusal: R,
}

/// The number of requests in the first chain of a batch. The batch isn't empty.
pub(crate) fn account_chain_len(requests: &[NewAccount]) -> usize
    requires { 0 < length requests.now }
    ensures some { 0 < result }
    ensures within { result ≤ length requests.now }
    ensures first { chains_of is_linked_account requests.now
        ≡ take result requests.now ∷ chains_of is_linked_account (drop result requests.now) }
{
    for (place, request) in requests.iter().enumerate() {
        if !request.is_linked() {
            return place + 1;
        }
    }
    requests.len()
}

/// The number of requests in the first chain of a batch. The batch isn't empty.
pub(crate) fn transfer_chain_len(requests: &[NewTransfer]) -> usize
    requires { 0 < length requests.now }
    ensures some { 0 < result }
    ensures within { result ≤ length requests.now }
    ensures first { chains_of is_linked_transfer requests.now
        ≡ take result requests.now ∷ chains_of is_linked_transfer (drop result requests.now) }
{
    for (place, request) in requests.iter().enumerate() {
        if !request.is_linked() {
            return place + 1;
        }
    }
    requests.len()
}

/// The number of requests that memory has to be reserved for until their chain is accepted: 0 if no request is
/// linked.
pub(crate) fn tail_len(requests: &[NewTransfer]) -> usize
    ensures enough { All (λ r. is_linked_transfer r ≡ true → length requests.now ≤ result) requests.now }
    ensures most { result ≤ length requests.now }
{
    if requests.iter().any(|request| request.is_linked()) {
        requests.len()
    } else {
        0
    }
}

/// Appends the same result `times` times. Memory is reserved for them.
pub(crate) fn push_times<R: Copy>(results: &mut Vec<R>, each: R, times: usize)
    requires { vec_len results.old + times ≤ vec_capacity results.old }
    ensures items { results.new.items ≡ results.old.items ++ replicate times each }
    ensures len { vec_len results.new ≡ vec_len results.old + times }
    ensures capacity { vec_capacity results.new ≡ vec_capacity results.old }
{
    for _ in 0..times {
        results.push_reserved(each);
    }
}

/// The result of a request that isn't validated since one before it in its chain was refused.
fn unjudged_account(request: NewAccount, is_last: bool) -> AccountResult
    ensures result { result ≡ unvalidated_one account_rules request is_last }
    ensures fits { NewAccountFits request }
{
    if request.is_linked() && is_last {
        AccountResult::LinkedEventChainOpen
    } else {
        AccountResult::LinkedEventFailed
    }
}

/// The result of a request that isn't validated since one before it in its chain was refused.
fn unjudged_transfer(request: NewTransfer, is_last: bool) -> TransferResult
    ensures result { result ≡ unvalidated_one transfer_rules request is_last }
    ensures fits { NewTransferFits request }
{
    if request.is_linked() && is_last {
        TransferResult::LinkedEventChainOpen
    } else {
        TransferResult::LinkedEventFailed
    }
}

/// Appends the results of requests that aren't validated. Memory is reserved for them.
pub(crate) fn push_unvalidated_accounts(results: &mut Vec<AccountResult>, requests: &[NewAccount])
    requires { vec_len results.old + length requests.now ≤ vec_capacity results.old }
    ensures items { results.new.items ≡ results.old.items ++ unvalidated account_rules requests.now }
    ensures len { vec_len results.new ≡ vec_len results.old + length requests.now }
    ensures capacity { vec_capacity results.new ≡ vec_capacity results.old }
    ensures fit { AllByRecursion NewAccountFits requests.now }
{
    for (place, request) in requests.iter().enumerate() {
        results.push_reserved(unjudged_account(*request, place + 1 == requests.len()));
    }
}

/// Appends the results of requests that aren't validated. Memory is reserved for them.
pub(crate) fn push_unvalidated_transfers(
    results: &mut Vec<TransferResult>,
    requests: &[NewTransfer],
)
    requires { vec_len results.old + length requests.now ≤ vec_capacity results.old }
    ensures items { results.new.items ≡ results.old.items ++ unvalidated transfer_rules requests.now }
    ensures len { vec_len results.new ≡ vec_len results.old + length requests.now }
    ensures capacity { vec_capacity results.new ≡ vec_capacity results.old }
    ensures fit { AllByRecursion NewTransferFits requests.now }
{
    for (place, request) in requests.iter().enumerate() {
        results.push_reserved(unjudged_transfer(*request, place + 1 == requests.len()));
    }
}
