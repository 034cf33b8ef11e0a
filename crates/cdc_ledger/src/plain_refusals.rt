//! The refusals of a transfer that follow from the balances of its two accounts.

ghost use Rattle.std.specs.Prelude.{◌≡◌, ◌+◌, ◌==◌, ◌<◌, ◌≤◌, ◌∷◌, [], ◌^◌, nat_lt};
ghost use Rattle.cdc_types.specs.Flags.{is_pending_request};
ghost use Rattle.cdc_types.specs.Lines.{first_line};
ghost use Rattle.cdc_types.specs.Widths.{max_128};
ghost use Rattle.cdc_ledger.specs.Accounts.{HasBoundedSums, lines_between, opened_as};
ghost use Rattle.cdc_ledger.specs.Verdict.{max_timestamp, overflow_lines, timeout_lines, limit_lines, sum_lines};

use crate::transfers::{as_asked, expires_at};
use cdc_types::{Account, AccountFlags, Balances, Limits, NewTransfer, TransferResult};

/// Whether the sum with the amount exceeds 128 bits.
fn overflows(sum: u128, amount: u128) -> bool
    ensures { result ≡ nat_lt max_128 (sum + amount) }
{
    sum.checked_add(amount).is_none()
}

/// The first sum that doesn't fit 128 bits after a single-phase or a pending transfer. `None` if all of them fit.
fn overflow_refusal(
    debit: &Balances,
    credit: &Balances,
    request: &NewTransfer,
) -> Option<TransferResult>
    requires debit { debit.now.debits_pending + debit.now.debits_posted ≤ max_128 }
    requires credit { credit.now.credits_pending + credit.now.credits_posted ≤ max_128 }
    ensures { result ≡ first_line (overflow_lines debit.now credit.now request.now) }
{
    let (pending, amount) = (request.is_pending(), request.amount);
    if pending && overflows(debit.debits_pending, amount) {
        Some(TransferResult::OverflowsDebitsPending)
    } else if pending && overflows(credit.credits_pending, amount) {
        Some(TransferResult::OverflowsCreditsPending)
    } else if overflows(debit.debits_posted, amount) {
        Some(TransferResult::OverflowsDebitsPosted)
    } else if overflows(credit.credits_posted, amount) {
        Some(TransferResult::OverflowsCreditsPosted)
    } else if overflows(debit.debits_pending + debit.debits_posted, amount) {
        Some(TransferResult::OverflowsDebits)
    } else if overflows(credit.credits_pending + credit.credits_posted, amount) {
        Some(TransferResult::OverflowsCredits)
    } else {
        None
    }
}

/// The refusal of a transfer that would expire after the greatest timestamp. `None` if it wouldn't.
fn timeout_refusal(request: &NewTransfer, timestamp: u64) -> Option<TransferResult>
    requires { timestamp ≤ max_timestamp }
    ensures { result ≡ first_line (timeout_lines request.now timestamp) }
{
    if request.timeout != 0 && expires_at(&as_asked(request, timestamp)) > Limits::TIMESTAMP {
        Some(TransferResult::OverflowsTimeout)
    } else {
        None
    }
}

/// The first limit, set by an account's flags, that the transfer exceeds. Pending amounts count as well.
fn limit_refusal(debited: &Account, credited: &Account, amount: u128) -> Option<TransferResult>
    requires debit { let b = debited.now.balances in
        b.debits_pending + b.debits_posted + amount ≤ max_128 }
    requires credit { let b = credited.now.balances in
        b.credits_pending + b.credits_posted + amount ≤ max_128 }
    ensures { result ≡ first_line (
        limit_lines debited.now.balances credited.now.balances
        (opened_as debited.now).request (opened_as credited.now).request amount
        ) }
{
    let (debit, credit) = (&debited.balances, &credited.balances);
    if debited.flags & AccountFlags::DEBITS_MUST_NOT_EXCEED_CREDITS != 0
        && debit.credits_posted < debit.debits_pending + debit.debits_posted + amount
    {
        Some(TransferResult::ExceedsCredits)
    } else if credited.flags & AccountFlags::CREDITS_MUST_NOT_EXCEED_DEBITS != 0
        && credit.debits_posted < credit.credits_pending + credit.credits_posted + amount
    {
        Some(TransferResult::ExceedsDebits)
    } else {
        None
    }
}

/// The first refusal of a single-phase or a pending transfer that follows from the balances after it: a sum doesn't
/// fit 128 bits, its expiry time exceeds the greatest timestamp, or it exceeds a limit that an account's flags set
/// (TigerBeetle, `create_transfers`).
pub(crate) fn sum_refusal(
    debited: &Account,
    credited: &Account,
    request: &NewTransfer,
    timestamp: u64,
) -> Option<TransferResult>
    requires debited { HasBoundedSums debited.now }
    requires credited { HasBoundedSums credited.now }
    requires within { timestamp ≤ max_timestamp }
    ensures { result ≡ first_line (
        sum_lines debited.now.balances credited.now.balances
        (opened_as debited.now).request (opened_as credited.now).request request.now timestamp
        ) }
{
    if let Some(refusal) = overflow_refusal(&debited.balances, &credited.balances, request) {
        return Some(refusal);
    }
    if let Some(refusal) = timeout_refusal(request, timestamp) {
        return Some(refusal);
    }
    limit_refusal(debited, credited, request.amount)
}

/// The first refusal of a single-phase or a pending transfer that follows from its two accounts.
pub(crate) fn refusal_between(
    debited: &Account,
    credited: &Account,
    request: &NewTransfer,
    timestamp: u64,
) -> Option<TransferResult>
    requires debited { HasBoundedSums debited.now }
    requires credited { HasBoundedSums credited.now }
    requires within { timestamp ≤ max_timestamp }
    ensures { result ≡ first_line (lines_between debited.now credited.now request.now timestamp) }
{
    if debited.ledger != credited.ledger {
        Some(TransferResult::AccountsMustHaveTheSameLedger)
    } else if request.ledger != debited.ledger {
        Some(TransferResult::TransferMustHaveTheSameLedgerAsAccounts)
    } else {
        sum_refusal(debited, credited, request, timestamp)
    }
}
