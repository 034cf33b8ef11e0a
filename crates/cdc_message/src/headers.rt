//! The headers and the basic properties of a message.

ghost use Rattle.std.specs.Prelude.{◌≡◌};
ghost use Rattle.cdc_message.specs.Headers.{headers_of_event, AreProperties};
ghost use Rattle.cdc_types.specs.declared.events.Event.{Event as SomeEvent};

use cdc_types::{Event, Headers, Properties};

const NANOSECONDS: u64 = 1_000_000_000;

/// The headers by which an event's message is routed (TigerBeetle, Change Data Capture, headers).
pub fn headers_of(event: &Event) -> Headers
    ensures { result ≡ headers_of_event event.now }
{
    Headers {
        kind: event.kind,
        ledger: event.ledger,
        transfer_code: event.transfer.code,
        debit_account_code: event.debit_account.code,
        credit_account_code: event.credit_account.code,
    }
}

/// The properties of an event's message. Their timestamp is in whole seconds, rounded down (TigerBeetle, Change Data
/// Capture; AMQP 0-9-1, basic class).
pub fn properties_of(event: &Event) -> Properties
    ensures { AreProperties result event.now }
{
    properties_at(event.timestamp)
}

/// The properties of the message of any event with this timestamp, in nanoseconds.
pub(crate) fn properties_at(timestamp: u64) -> Properties
    ensures { (event : SomeEvent) → event.timestamp ≡ timestamp → AreProperties result event }
{
    Properties {
        app_id: "tigerbeetle",
        content_type: "application/json",
        delivery_mode: 2,
        timestamp: timestamp / NANOSECONDS,
    }
}
