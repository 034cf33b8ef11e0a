//! What is audited of an event of another ledger, whose flags may have more bits than ours.

ghost use Rattle.std.specs.Prelude.{◌≡◌};
ghost use Rattle.cdc_audit.specs.Foreign as spec;

use crate::checks::stores;
use cdc_types::{AccountFlags, Event, EventAccount, EventTransfer, TransferFlags};

/// An account with our flags alone.
fn own_account(account: &EventAccount) -> EventAccount
    ensures { result ≡ spec.own_account account.now }
{
    EventAccount {
        flags: account.flags & AccountFlags::ACCEPTED,
        ..*account
    }
}

/// The timestamp of an event's transfer. One that is stored with other flags than ours may have any timestamp, and has
/// the event's.
fn own_timestamp(event: &Event) -> u64
    ensures { result ≡ spec.own_timestamp event.now }
{
    if stores(event.kind) && event.transfer.flags & !TransferFlags::ACCEPTED != 0 {
        event.timestamp
    } else {
        event.transfer.timestamp
    }
}

/// An event with our flags alone.
fn own_event(event: &Event) -> Event
    ensures { result ≡ spec.own_event event.now }
{
    Event {
        transfer: EventTransfer {
            flags: event.transfer.flags & TransferFlags::ACCEPTED,
            timestamp: own_timestamp(event),
            ..event.transfer
        },
        debit_account: own_account(&event.debit_account),
        credit_account: own_account(&event.credit_account),
        ..*event
    }
}

/// What is audited of an event, of another ledger or of ours.
pub(crate) fn audited_event(foreign: bool, event: &Event) -> Event
    ensures { result ≡ spec.audited_event foreign event.now }
{
    if foreign { own_event(event) } else { *event }
}
