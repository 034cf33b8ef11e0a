//! The refusals of a post or a void of a pending transfer.

ghost use Rattle.std.specs.Prelude.{◌≡◌, ◌≢◌, ◌==◌, ◌&&◌, not, nat_le, ◌<◌, ◌^◌};
ghost use Rattle.cdc_types.specs.Lines.{first_line};
ghost use Rattle.cdc_ledger.specs.Endings.{ended_refusal};
ghost use Rattle.cdc_ledger.specs.Filling as filling;
ghost use Rattle.cdc_ledger.specs.Verdict as lines;

use crate::endings::Ending;
use crate::transfers::{expires_at, settled_amount};
use cdc_types::{Entry, EventKind, NewTransfer, Transfer, TransferResult};

/// Whether a value is given that differs from the pending transfer's own. 0 means that none is given.
fn is_other(given: u128, own: u128) -> bool
    ensures { result ≡ lines.is_other given own }
{
    given != 0 && given != own
}

/// The first refusal of a post or a void that follows from comparing its fields with those of the transfer that it
/// names. `None` if they agree.
pub(crate) fn field_refusal(entry: &Entry, request: &NewTransfer) -> Option<TransferResult>
    ensures { result ≡ first_line (lines.field_lines entry.now request.now) }
{
    let pending = &entry.transfer;
    let amount = settled_amount(request, pending);
    if entry.kind != EventKind::TwoPhasePending {
        Some(TransferResult::PendingTransferNotPending)
    } else if is_other(request.debit_account_id, pending.debit_account_id) {
        Some(TransferResult::PendingTransferHasDifferentDebitAccountId)
    } else if is_other(request.credit_account_id, pending.credit_account_id) {
        Some(TransferResult::PendingTransferHasDifferentCreditAccountId)
    } else if is_other(u128::from(request.ledger), u128::from(pending.ledger)) {
        Some(TransferResult::PendingTransferHasDifferentLedger)
    } else if is_other(u128::from(request.code), u128::from(pending.code)) {
        Some(TransferResult::PendingTransferHasDifferentCode)
    } else if amount > pending.amount {
        Some(TransferResult::ExceedsPendingTransferAmount)
    } else if request.is_void() && amount < pending.amount {
        Some(TransferResult::PendingTransferHasDifferentAmount)
    } else {
        None
    }
}

/// Whether the pending transfer has a timeout that is up at this timestamp.
fn is_up(pending: &Transfer, timestamp: u64) -> bool
    requires { pending.now.timeout ≢ 0 → filling.expires_at pending.now < 2 ^ 64 }
    ensures { result
        ≡ (not (pending.now.timeout == 0) && nat_le (filling.expires_at pending.now) timestamp) }
{
    pending.timeout != 0 && expires_at(pending) <= timestamp
}

/// Why the pending transfer can't be settled any more: it was posted or voided, or it has expired, even if no pulse
/// has recorded the expiry. `None` if it can be settled.
pub(crate) fn end_refusal(
    ending: Ending,
    pending: &Transfer,
    timestamp: u64,
) -> Option<TransferResult>
    requires { pending.now.timeout ≢ 0 → filling.expires_at pending.now < 2 ^ 64 }
    ensures { result ≡ ended_refusal ending pending.now timestamp }
{
    match ending {
        Ending::Posted => Some(TransferResult::PendingTransferAlreadyPosted),
        Ending::Voided => Some(TransferResult::PendingTransferAlreadyVoided),
        Ending::Expired => Some(TransferResult::PendingTransferExpired),
        Ending::Open if is_up(pending, timestamp) => Some(TransferResult::PendingTransferExpired),
        Ending::Open => None,
    }
}
