//! The rules on the order in which pending transfers expire.

ghost use Rattle.std.specs.Prelude.{◌≡◌, ◌∷◌, []};
ghost use Rattle.cdc_types.specs.Lines.{first_line};
ghost use Rattle.cdc_audit.specs.Expiries as spec;
ghost use Rattle.cdc_audit.specs.Known as known;

use crate::checks::{is_next, stores};
use crate::refusals::Refusal;
use crate::settling::expires_at;
use cdc_types::{Event, EventTransfer};

/// The event if it is an expiry; otherwise the last one before it.
pub(crate) fn expiry_or(last: Option<Event>, event: &Event) -> Option<Event>
    ensures { result ≡ known.expiry_or last event.now }
{
    if stores(event.kind) {
        last
    } else {
        Some(*event)
    }
}

/// Whether a pending transfer expires before another one.
fn is_sooner(one: &EventTransfer, other: &EventTransfer) -> bool
    ensures { result ≡ spec.is_sooner one.now other.now }
{
    let (end, other_end) = (expires_at(one), expires_at(other));
    end < other_end || (end == other_end && one.timestamp < other.timestamp)
}

/// The refusal of an event by the open pending transfer that expires first: an expiry is of that one.
fn late_refusal(first: &Event, event: &Event) -> Option<Refusal>
    ensures { result ≡ first_line (spec.late_line first.now event.now ∷ []) }
{
    if !stores(event.kind) && is_sooner(&first.transfer, &event.transfer) {
        Some(Refusal::ExpiresLate(event.transfer.id, first.transfer.id))
    } else {
        None
    }
}

/// The refusal of an event by the open pending transfer that expires first, if that one expires with the last expiry.
fn apart_refusal(first: &Event, last: &Event, event: &Event) -> Option<Refusal>
    ensures { result ≡ first_line (spec.apart_line first.now last.now event.now ∷ []) }
{
    let expires_with = expires_at(&first.transfer) == expires_at(&last.transfer);
    if expires_with && !(!stores(event.kind) && is_next(last.timestamp, event.timestamp)) {
        Some(Refusal::ExpiresApart(first.transfer.id, last.transfer.id))
    } else {
        None
    }
}

/// The refusal of an event by the open pending transfer that expires first and by the last expiry before the event.
pub(crate) fn expiry_refusal(
    first: Option<Event>,
    last: Option<Event>,
    event: &Event,
) -> Option<Refusal>
    ensures { result ≡ first_line (spec.expiry_lines first last event.now) }
{
    let Some(first) = first else {
        return None;
    };
    let Some(last) = last else {
        return late_refusal(&first, event);
    };
    late_refusal(&first, event).or(apart_refusal(&first, &last, event))
}
