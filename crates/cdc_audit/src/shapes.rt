//! The rules on an event's own fields.

ghost use Rattle.std.specs.Prelude.{◌≡◌, ◌==◌, ◌&&◌, not, nat_lt, if◌then◌else◌, []};
ghost use Rattle.cdc_types.specs.Lines.{first_line};
ghost use Rattle.cdc_ledger.specs.Kinds as kinds;
ghost use Rattle.cdc_types.specs.declared.bounds.TheConstants.Limits.{TIMESTAMP};
ghost use Rattle.cdc_audit.specs.EventShapes as spec;
ghost use Rattle.cdc_audit.specs.Settling as settling;

use crate::checks::{holds, stores};
use crate::refusals::Refusal;
use crate::settling::expires_at;
use cdc_types::{Event, EventAccount, EventKind, Limits, NewAccount, NewTransfer, TransferResult};

/// An event's transfer as a request for it.
fn asked_transfer(event: &Event) -> NewTransfer
    ensures { result ≡ spec.asked_transfer event.now }
{
    let transfer = &event.transfer;
    NewTransfer {
        id: transfer.id,
        debit_account_id: event.debit_account.id,
        credit_account_id: event.credit_account.id,
        amount: transfer.amount,
        pending_id: transfer.pending_id,
        user_data_128: transfer.user_data_128,
        user_data_64: transfer.user_data_64,
        user_data_32: transfer.user_data_32,
        timeout: transfer.timeout,
        ledger: event.ledger,
        code: transfer.code,
        flags: transfer.flags,
    }
}

/// An account of this ledger as a request for it.
fn asked_account(ledger: u32, account: &EventAccount) -> NewAccount
    ensures { result ≡ spec.asked_account ledger account.now }
{
    NewAccount {
        id: account.id,
        user_data_128: account.user_data_128,
        user_data_64: account.user_data_64,
        user_data_32: account.user_data_32,
        ledger,
        code: account.code,
        flags: account.flags,
    }
}

/// Whether a transfer's flags are those of an event of this kind.
fn is_of_kind(kind: EventKind, request: &NewTransfer) -> bool
    ensures { result ≡ spec.is_of_kind kind request.now }
{
    match kind {
        EventKind::SinglePhase => request.is_plain() && !request.is_pending(),
        EventKind::TwoPhasePending => request.is_pending(),
        EventKind::TwoPhasePosted => request.is_post(),
        EventKind::TwoPhaseVoided => request.is_void(),
        EventKind::TwoPhaseExpired => true,
    }
}

/// Whether an event stores a pending transfer that expires after the greatest timestamp.
fn expires_too_late(event: &Event) -> bool
    ensures { result ≡ (kinds.holds event.now.kind && not (event.now.transfer.timeout == 0)
        && nat_lt TIMESTAMP (settling.expires_at event.now.transfer)) }
{
    holds(event.kind)
        && event.transfer.timeout != 0
        && u128::from(Limits::TIMESTAMP) < expires_at(&event.transfer)
}

/// The refusal of an event by the fields of the transfer that it stores.
fn stored_refusal(event: &Event) -> Option<Refusal>
    ensures { result ≡ first_line (spec.stored_lines event.now) }
{
    let (id, timestamp) = (event.transfer.id, event.transfer.timestamp);
    let request = asked_transfer(event);
    if let Some(result) = request.check_shape() {
        Some(Refusal::TransferShape(id, result))
    } else if event.ledger == 0 {
        Some(Refusal::TransferShape(id, TransferResult::LedgerMustNotBeZero))
    } else if event.transfer.code == 0 {
        Some(Refusal::TransferShape(id, TransferResult::CodeMustNotBeZero))
    } else if expires_too_late(event) {
        Some(Refusal::TransferShape(id, TransferResult::OverflowsTimeout))
    } else if !is_of_kind(event.kind, &request) {
        Some(Refusal::OtherKind(id))
    } else if timestamp != event.timestamp {
        Some(Refusal::OtherTimestamp(id, timestamp, event.timestamp))
    } else {
        None
    }
}

/// The refusal of an event by the fields of its transfer, if it stores it.
fn transfer_refusal(event: &Event) -> Option<Refusal>
    ensures { result ≡ first_line (if kinds.stores event.now.kind then spec.stored_lines event.now else []) }
{
    if stores(event.kind) {
        stored_refusal(event)
    } else {
        None
    }
}

/// The refusal of an event by the fields of an account of this ledger.
fn account_refusal(ledger: u32, account: &EventAccount) -> Option<Refusal>
    ensures { result ≡ first_line (spec.account_lines ledger account.now) }
{
    match asked_account(ledger, account).check() {
        Some(result) => Some(Refusal::AccountShape(account.id, result)),
        None => None,
    }
}

/// The refusal of an event by its own fields.
pub(crate) fn shape_refusal(event: &Event) -> Option<Refusal>
    ensures { result ≡ first_line (spec.shape_lines event.now) }
{
    transfer_refusal(event).or(account_refusal(event.ledger, &event.debit_account).or(
        account_refusal(event.ledger, &event.credit_account),
    ))
}
