//! The transfers that are stored for requests.

ghost use Rattle.std.specs.Prelude.{◌≡◌, ◌<◌, ◌^◌};
ghost use Rattle.cdc_ledger.specs.Events as shown;
ghost use Rattle.cdc_ledger.specs.Filling as filling;
ghost use Rattle.cdc_ledger.specs.Kinds as kinds;
ghost use Rattle.cdc_ledger.specs.Submit as submit;

use cdc_types::{Entry, EventKind, EventTransfer, NewTransfer, Transfer};

/// The request's fields with a timestamp.
pub(crate) fn as_asked(request: &NewTransfer, timestamp: u64) -> Transfer
    ensures { result ≡ filling.as_asked request.now timestamp }
{
    Transfer {
        id: request.id,
        debit_account_id: request.debit_account_id,
        credit_account_id: request.credit_account_id,
        amount: request.amount,
        pending_id: request.pending_id,
        user_data_128: request.user_data_128,
        user_data_64: request.user_data_64,
        user_data_32: request.user_data_32,
        timeout: request.timeout,
        ledger: request.ledger,
        code: request.code,
        flags: request.flags,
        timestamp,
    }
}

/// The amount that a post or a void settles. In a post the greatest number means the whole pending amount; in a void
/// 0 does.
pub(crate) fn settled_amount(request: &NewTransfer, pending: &Transfer) -> u128
    ensures { result ≡ filling.settled_amount request.now pending.now }
{
    let whole = if request.is_post() { u128::MAX } else { 0 };
    if request.amount == whole {
        pending.amount
    } else {
        request.amount
    }
}

/// A post or a void of the pending transfer. A field that is 0 in the request is taken from the pending transfer
/// (TigerBeetle, Two-Phase Transfers).
pub(crate) fn filled_from(pending: &Transfer, request: &NewTransfer, timestamp: u64) -> Transfer
    ensures { result ≡ filling.filled_from pending.now request.now timestamp }
{
    let asked = as_asked(request, timestamp);
    Transfer {
        debit_account_id: or_own_128(asked.debit_account_id, pending.debit_account_id),
        credit_account_id: or_own_128(asked.credit_account_id, pending.credit_account_id),
        amount: settled_amount(request, pending),
        user_data_128: or_own_128(asked.user_data_128, pending.user_data_128),
        user_data_64: or_own_64(asked.user_data_64, pending.user_data_64),
        user_data_32: or_own_32(asked.user_data_32, pending.user_data_32),
        ledger: or_own_32(asked.ledger, pending.ledger),
        code: or_own_16(asked.code, pending.code),
        ..asked
    }
}

/// The given value; 0 means the pending transfer's own.
fn or_own_128(given: u128, own: u128) -> u128
    ensures { result ≡ filling.or_own given own }
{
    if given == 0 { own } else { given }
}

/// The given value; 0 means the pending transfer's own.
fn or_own_64(given: u64, own: u64) -> u64
    ensures { result ≡ filling.or_own given own }
{
    if given == 0 { own } else { given }
}

/// The given value; 0 means the pending transfer's own.
fn or_own_32(given: u32, own: u32) -> u32
    ensures { result ≡ filling.or_own given own }
{
    if given == 0 { own } else { given }
}

/// The given value; 0 means the pending transfer's own.
fn or_own_16(given: u16, own: u16) -> u16
    ensures { result ≡ filling.or_own given own }
{
    if given == 0 { own } else { given }
}

/// The kind of the entry that an accepted request leads to.
pub(crate) fn kind_of(request: &NewTransfer) -> EventKind
    ensures { result ≡ submit.kind_of request.now }
{
    if request.is_pending() {
        EventKind::TwoPhasePending
    } else if request.is_post() {
        EventKind::TwoPhasePosted
    } else if request.is_void() {
        EventKind::TwoPhaseVoided
    } else {
        EventKind::SinglePhase
    }
}

/// When a pending transfer expires, in nanoseconds. Its timeout is in seconds.
pub(crate) fn expires_at(pending: &Transfer) -> u64
    requires { filling.expires_at pending.now < 2 ^ 64 }
    ensures { result ≡ filling.expires_at pending.now }
{
    pending.timestamp + u64::from(pending.timeout) * 1_000_000_000
}

/// The transfer as an event shows it.
pub(crate) fn shown_transfer(transfer: &Transfer) -> EventTransfer
    ensures { result ≡ shown.shown_transfer transfer.now }
{
    EventTransfer {
        id: transfer.id,
        amount: transfer.amount,
        pending_id: transfer.pending_id,
        user_data_128: transfer.user_data_128,
        user_data_64: transfer.user_data_64,
        user_data_32: transfer.user_data_32,
        timeout: transfer.timeout,
        code: transfer.code,
        flags: transfer.flags,
        timestamp: transfer.timestamp,
    }
}

/// Whether all fields except the timestamp are equal.
pub(crate) fn is_same_transfer(asked: &Transfer, stored: &Transfer) -> bool
    ensures { result ≡ filling.is_same_transfer asked.now stored.now }
{
    asked.id == stored.id
        && asked.debit_account_id == stored.debit_account_id
        && asked.credit_account_id == stored.credit_account_id
        && asked.amount == stored.amount
        && asked.pending_id == stored.pending_id
        && asked.user_data_128 == stored.user_data_128
        && asked.user_data_64 == stored.user_data_64
        && asked.user_data_32 == stored.user_data_32
        && asked.timeout == stored.timeout
        && asked.ledger == stored.ledger
        && asked.code == stored.code
        && asked.flags == stored.flags
}

/// Whether an entry of this kind stores its transfer. An expiry doesn't: its transfer was stored before.
pub(crate) fn stores(kind: EventKind) -> bool
    ensures { result ≡ kinds.stores kind }
{
    kind != EventKind::TwoPhaseExpired
}
