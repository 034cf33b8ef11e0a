//! The JSON lines of deliveries.

ghost use Rattle.std.specs.Prelude.{◌≡◌, ◌++◌, IfOk, List, OnOk, Some, string_bytes};
ghost use Rattle.std.specs.List.{join_with_byte};
ghost use Rattle.cdc_types.specs.declared.events.Event.{Event as SomeEvent};
ghost use Rattle.cdc_queue_lines.specs.Lines.{ended};
ghost use Rattle.cdc_deliveries.specs.DeliveryLines.{content_members, delivery_line, delivery_text};
ghost use Rattle.cdc_deliveries.specs.DeliveryLines.{flag_text as flag_named, line_of};
ghost use Rattle.cdc_deliveries.specs.Feeds.{placed};
ghost use Rattle.cdc_deliveries.specs.Indexes.{IsIndexOf};

use crate::arrivals::Arrival;
use crate::feeds::{FeedIndex, Placed};
use cdc_log::EventLog;
use cdc_match::Binding;
use cdc_message::Message;
use cdc_queue_lines::push_headers;
use cdc_types::Event;
use itoa::{Buffer, Integer};
use std::alloc::{AllocError, Global};

/// The JSON lines of the deliveries to a subscriber with this binding, one for each arrival. The log has the events of
/// the ledger, all of its history. An error means out of memory.
pub fn delivery_lines(
    alloc: Global,
    log: &EventLog,
    binding: &Binding,
    arrivals: &[Arrival],
) -> Result<Vec<u8>, AllocError>
    ensures { IfOk result (λ text. text.items ≡ delivery_text binding.now log.now.events arrivals.now) }
{
    let index = FeedIndex::new(alloc, log, binding)?;
    let mut text = String::new(alloc);
    for (place, arrival) in arrivals.iter().enumerate() {
        push_arrival(alloc, &mut text, &index, place as u64 + 1, arrival)?;
    }
    Ok(text.into_bytes())
}

/// Adds the line of an arrival of this number, if the feed has its item.
fn push_arrival(
    alloc: Global,
    text: &mut String,
    index: &FeedIndex,
    number: u64,
    arrival: &Arrival,
) -> Result<(), AllocError>
    ensures { OnOk result ((fed : List SomeEvent) → IsIndexOf index.now fed → string_bytes text.new
        ≡ string_bytes text.old ++ line_of (delivery_line number arrival.now) (placed fed arrival.now.item)) }
{
    match index.find(arrival.item) {
        Some(placed) => push_delivery(alloc, text, number, *arrival, placed),
        None => Ok(()),
    }
}

/// Adds the line of the delivery of this number.
fn push_delivery(
    alloc: Global,
    text: &mut String,
    number: u64,
    arrival: Arrival,
    placed: Placed,
) -> Result<(), AllocError>
    ensures { OnOk result (string_bytes text.new
        ≡ string_bytes text.old ++ ended (delivery_line number arrival placed)) }
{
    push_field(text, "{\"kind\":\"delivery\",\"delivery\":", number)?;
    push_field(text, ",\"position\":", arrival.position)?;
    text.push_str(",\"redelivered\":")?;
    text.push_str(flag_text(arrival.redelivered))?;
    push_field(text, ",\"previous\":\"", placed.previous)?;
    text.push_str("\",")?;
    push_content(alloc, text, placed.event)?;
    text.push_str("}\n")?;
    Ok(())
}

/// Adds the members that an event's message has, or that of the end mark.
fn push_content(alloc: Global, text: &mut String, event: Option<Event>) -> Result<(), AllocError>
    ensures { OnOk result (string_bytes text.new
        ≡ string_bytes text.old ++ join_with_byte 44 (content_members event)) }
{
    match event {
        Some(event) => push_message(alloc, text, &event),
        None => {
            text.push_str("\"end\":true")?;
            Ok(())
        }
    }
}

fn push_message(alloc: Global, text: &mut String, event: &Event) -> Result<(), AllocError>
    ensures { OnOk result (string_bytes text.new
        ≡ string_bytes text.old ++ join_with_byte 44 (content_members (Some event.now))) }
{
    let message = Message::of(alloc, event)?;
    text.push_str("\"headers\":")?;
    push_headers(text, message.headers())?;
    push_field(text, ",\"timestamp\":", message.properties().timestamp)?;
    text.push_str(",\"body\":")?;
    text.push_str(message.body())?;
    Ok(())
}

fn flag_text(flag: bool) -> &'static str
    ensures { result.now ≡ flag_named flag }
{
    if flag { "true" } else { "false" }
}

/// Adds what comes before a number, and the number in decimal digits.
pub(crate) fn push_field<I: Integer>(
    text: &mut String,
    before: &str,
    number: I,
) -> Result<(), AllocError>
    ensures { OnOk result (string_bytes text.new
        ≡ string_bytes text.old ++ (before.now ++ I.text number)) }
{
    text.push_str(before)?;
    text.push_str(Buffer::new().format(number))?;
    Ok(())
}
