//! The rules on the pending transfer that an event settles.

ghost use Rattle.std.specs.Prelude.{◌≡◌, if◌then◌else◌};
ghost use Rattle.cdc_types.specs.Lines.{first_line};
ghost use Rattle.cdc_ledger.specs.Kinds as kinds;
ghost use Rattle.cdc_audit.specs.Settling as spec;

use crate::checks::{moves, settled_id, stores};
use crate::refusals::Refusal;
use cdc_types::{Event, EventTransfer};

/// Whether every field of the two transfers is equal.
fn is_same_transfer(one: &EventTransfer, other: &EventTransfer) -> bool
    ensures { result ≡ spec.is_same_transfer one.now other.now }
{
    one.id == other.id
        && one.amount == other.amount
        && one.pending_id == other.pending_id
        && one.user_data_128 == other.user_data_128
        && one.user_data_64 == other.user_data_64
        && one.user_data_32 == other.user_data_32
        && one.timeout == other.timeout
        && one.code == other.code
        && one.flags == other.flags
        && one.timestamp == other.timestamp
}

/// Whether a field of a post or a void is 0 only if the pending transfer's own is.
fn is_taken_over(shown: u128, own: u128) -> bool
    ensures { result ≡ spec.is_taken_over shown own }
{
    shown != 0 || own == 0
}

/// Whether the user data of a transfer that posts or voids a pending one is 0 only if that one's is.
fn has_data_of(pending: &EventTransfer, transfer: &EventTransfer) -> bool
    ensures { result ≡ spec.has_data_of pending.now transfer.now }
{
    is_taken_over(transfer.user_data_128, pending.user_data_128)
        && is_taken_over(transfer.user_data_64.into(), pending.user_data_64.into())
        && is_taken_over(transfer.user_data_32.into(), pending.user_data_32.into())
}

/// Whether the transfer of an event has the fields that are its own of the pending transfer: its user data, or for an
/// expiry all of them.
fn has_own_of(pending: &EventTransfer, event: &Event) -> bool
    ensures { result ≡ (if kinds.stores event.now.kind then spec.has_data_of pending.now event.now.transfer
        else spec.is_same_transfer event.now.transfer pending.now) }
{
    if stores(event.kind) {
        has_data_of(pending, &event.transfer)
    } else {
        is_same_transfer(&event.transfer, pending)
    }
}

/// Whether an event has the accounts, the ledger, the code and the user data of the pending transfer, or for an expiry
/// the whole transfer.
fn has_fields_of(pending: &Event, event: &Event) -> bool
    ensures { result ≡ spec.has_fields_of pending.now event.now }
{
    event.debit_account.id == pending.debit_account.id
        && event.credit_account.id == pending.credit_account.id
        && event.ledger == pending.ledger
        && event.transfer.code == pending.transfer.code
        && has_own_of(&pending.transfer, event)
}

/// Whether an event has an amount that this kind of event may have of a pending transfer that holds so much.
fn has_amount_of(held: u128, event: &Event) -> bool
    ensures { result ≡ spec.has_amount_of held event.now }
{
    if moves(event.kind) {
        event.transfer.amount <= held
    } else {
        event.transfer.amount == held
    }
}

/// When a pending transfer expires, in nanoseconds.
pub(crate) fn expires_at(pending: &EventTransfer) -> u128
    ensures { result ≡ spec.expires_at pending.now }
{
    u128::from(pending.timestamp) + u128::from(pending.timeout) * 1_000_000_000
}

/// Whether a pending transfer with a timeout has expired by this time.
fn has_expired(timestamp: u64, pending: &EventTransfer) -> bool
    ensures { result ≡ spec.has_expired timestamp pending.now }
{
    pending.timeout != 0 && expires_at(pending) <= u128::from(timestamp)
}

/// The refusal of an event by the pending transfer that it settles, which this event stored.
pub fn settling_refusal(settled: Option<Event>, event: &Event) -> Option<Refusal>
    ensures { result ≡ first_line (spec.settling_lines settled event.now) }
{
    let Some(pending) = settled else {
        return None;
    };
    let held = pending.transfer.amount;
    let expires_at = expires_at(&pending.transfer);
    let has_expired = has_expired(event.timestamp, &pending.transfer);
    if !has_fields_of(&pending, event) {
        Some(Refusal::OtherFields(settled_id(event)))
    } else if !has_amount_of(held, event) {
        Some(Refusal::Amount(event.transfer.amount, settled_id(event), held))
    } else if !stores(event.kind) && pending.transfer.timeout == 0 {
        Some(Refusal::NoTimeout(settled_id(event)))
    } else if !stores(event.kind) && u128::from(event.timestamp) < expires_at {
        Some(Refusal::TooSoon(settled_id(event), event.timestamp, expires_at))
    } else if stores(event.kind) && has_expired {
        Some(Refusal::TooLate(settled_id(event), event.timestamp, expires_at))
    } else {
        None
    }
}
