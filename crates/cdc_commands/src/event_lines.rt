//! What `messages` prints as text: two lines for each event, its message's routing headers and its body.

ghost use Rattle.std.specs.Prelude.{◌≡◌, ◌++◌, ◌<◌, IfOk, OnErr, OnOk, length, string_bytes};
ghost use Rattle.std.specs.List.{flat_map};
ghost use Rattle.cdc_commands.specs.Messages.{kind_header, headers_line, message_lines};

use crate::report::push_number;
use cdc_log::EventLog;
use cdc_message::{Message, kind_text};
use cdc_types::{Event, EventKind, Headers};
use itoa::Integer;
use std::alloc::{AllocError, Global};

/// The lines of all events.
pub(crate) fn event_lines(alloc: Global, log: &EventLog) -> Result<String, AllocError>
    ensures text { IfOk result (λ text.
        string_bytes text ≡ flat_map message_lines log.now.events) }
    ensures memory { OnErr result (0 < length log.now.events) }
{
    let mut text = String::new(alloc);
    for place in 0..log.len() {
        if let Some(event) = log.get(place) {
            push_message(alloc, &mut text, event)?;
        }
    }
    Ok(text)
}

/// Adds the two lines of an event.
fn push_message(alloc: Global, text: &mut String, event: &Event) -> Result<(), AllocError>
    ensures { OnOk result (string_bytes text.new ≡
        string_bytes text.old ++ message_lines event.now) }
{
    let message = Message::of(alloc, event)?;
    push_headers(text, message.headers(), message.properties().timestamp)?;
    text.push_str(message.body())?;
    text.push_str("\n")?;
    Ok(())
}

/// Adds the line of a message's routing headers and of its timestamp in seconds.
fn push_headers(text: &mut String, headers: Headers, seconds: u64) -> Result<(), AllocError>
    ensures { OnOk result (string_bytes text.new ≡
        string_bytes text.old ++ headers_line headers seconds) }
{
    push_kind(text, headers.kind)?;
    push_header(text, " ledger=", headers.ledger)?;
    push_header(text, " transfer_code=", headers.transfer_code)?;
    push_header(text, " debit_account_code=", headers.debit_account_code)?;
    push_header(text, " credit_account_code=", headers.credit_account_code)?;
    push_header(text, " timestamp=", seconds)?;
    text.push_str("\n")?;
    Ok(())
}

/// Adds the header of an event's kind.
fn push_kind(text: &mut String, kind: EventKind) -> Result<(), AllocError>
    ensures { OnOk result (string_bytes text.new ≡ string_bytes text.old ++ kind_header kind) }
{
    text.push_str("event_type=")?;
    text.push_str(kind_text(kind))?;
    Ok(())
}

/// Adds a header: its name, an equals sign and its number.
fn push_header<I: Integer>(text: &mut String, name: &str, value: I) -> Result<(), AllocError>
    ensures { OnOk result (string_bytes text.new ≡
        string_bytes text.old ++ (name.now ++ I.text value)) }
{
    text.push_str(name)?;
    push_number(text, value)
}
