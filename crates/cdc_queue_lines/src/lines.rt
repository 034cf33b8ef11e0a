//! The JSON lines of a queue.

ghost use Rattle.std.specs.Prelude.{◌≡◌, ◌∷◌, ◌++◌, List, IfOk, OnOk, flat_map, string_bytes};
ghost use Rattle.cdc_types.specs.declared.events.Event.{Event as SomeEvent};
ghost use Rattle.cdc_match.specs.Queue.{feed};
ghost use Rattle.cdc_queue_lines.specs.Lines.{end_line, ended, headers_text, lines_after, message_line, queue_text};

use cdc_log::EventLog;
use cdc_match::Binding;
use cdc_message::{Message, headers_of, kind_text};
use cdc_types::{Event, Headers};
use itoa::{Buffer, Integer};
use std::alloc::{AllocError, Global};

/// The JSON lines of the queue of a binding: one for each event of the log that the binding takes, in order, and then
/// one for the end of the queue. Each line has the timestamp of the event before it in this queue, in nanoseconds, or 0
/// if there is none. An error means out of memory.
pub fn queue_lines(alloc: Global, log: &EventLog, binding: &Binding) -> Result<Vec<u8>, AllocError>
    ensures { IfOk result (λ text. text.items ≡ queue_text binding.now log.now.events) }
{
    let mut text = String::new(alloc);
    let mut previous = 0;
    for place in 0..log.len() {
        if let Some(event) = log.get(place) {
            previous = push_event(alloc, &mut text, binding, previous, event)?;
        }
    }
    push_end(&mut text, previous)?;
    Ok(text.into_bytes())
}

/// Adds the line of an event if the binding takes it. Returns the timestamp of the last event of the queue then.
fn push_event(
    alloc: Global,
    text: &mut String,
    binding: &Binding,
    previous: u64,
    event: &Event,
) -> Result<u64, AllocError>
    ensures { IfOk result (λ last. (later : List SomeEvent) → string_bytes text.new
        ++ flat_map ended (lines_after last (feed later binding.now))
        ≡ string_bytes text.old
        ++ flat_map ended (lines_after previous (feed (event.now ∷ later) binding.now))) }
{
    if !binding.matches(&headers_of(event)) {
        return Ok(previous);
    }
    push_message(alloc, text, previous, event)?;
    Ok(event.timestamp)
}

/// Adds the line of an event.
fn push_message(
    alloc: Global,
    text: &mut String,
    previous: u64,
    event: &Event,
) -> Result<(), AllocError>
    ensures { OnOk result (string_bytes text.new
        ≡ string_bytes text.old ++ ended (message_line previous event.now)) }
{
    let message = Message::of(alloc, event)?;
    push_field(text, "{\"kind\":\"message\",\"previous\":\"", previous)?;
    text.push_str("\",\"headers\":")?;
    push_headers(text, message.headers())?;
    push_field(text, ",\"timestamp\":", message.properties().timestamp)?;
    text.push_str(",\"body\":")?;
    text.push_str(message.body())?;
    text.push_str("}\n")?;
    Ok(())
}

/// Adds the object of a message's routing headers.
pub fn push_headers(text: &mut String, headers: Headers) -> Result<(), AllocError>
    ensures { OnOk result (string_bytes text.new
        ≡ string_bytes text.old ++ headers_text headers) }
{
    text.push_str("{\"event_type\":\"")?;
    text.push_str(kind_text(headers.kind))?;
    push_field(text, "\",\"ledger\":", headers.ledger)?;
    push_field(text, ",\"transfer_code\":", headers.transfer_code)?;
    push_field(text, ",\"debit_account_code\":", headers.debit_account_code)?;
    push_field(
        text,
        ",\"credit_account_code\":",
        headers.credit_account_code,
    )?;
    text.push_str("}")?;
    Ok(())
}

/// Adds the line of the end of a queue.
fn push_end(text: &mut String, previous: u64) -> Result<(), AllocError>
    ensures { OnOk result (string_bytes text.new
        ≡ string_bytes text.old ++ ended (end_line previous)) }
{
    push_field(text, "{\"kind\":\"end\",\"previous\":\"", previous)?;
    text.push_str("\",\"end\":true}\n")?;
    Ok(())
}

/// Adds what stands before a number, and the number in decimal digits.
pub(crate) fn push_field<I: Integer>(
    text: &mut String,
    before: &str,
    number: I,
) -> Result<(), AllocError>
    ensures { OnOk result (string_bytes text.new
        ≡ string_bytes text.old ++ (before.now ++ I.text number)) }
{
    text.push_str(before)?;
    text.push_str(Buffer::new().format(number))?;
    Ok(())
}
