//! The lines of queues.

ghost use Rattle.std.specs.Prelude.{◌≡◌, ◌++◌, OnOk, string_bytes};
ghost use Rattle.cdc_chain.specs.Lines.{end_lines, event_lines, event_line, end_line, line_text, lines_text};
ghost use Rattle.cdc_queue_lines.specs.Lines.{ended};

use cdc_message::Message;
use cdc_queue_lines::{Predecessor, push_headers};
use cdc_types::Event;
use itoa::{Buffer, Integer};
use std::alloc::{AllocError, Global};

/// Adds what stands before a number, and the number in decimal digits.
fn push_field<I: Integer>(text: &mut String, before: &str, number: I) -> Result<(), AllocError>
    ensures { OnOk result (string_bytes text.new ≡ string_bytes text.old ++ (before.now ++ I.text number)) }
{
    text.push_str(before)?;
    text.push_str(Buffer::new().format(number))?;
    Ok(())
}

/// Adds the line of a message in a queue that takes it.
fn push_message(text: &mut String, queue: Predecessor, message: &Message) -> Result<(), AllocError>
    ensures { OnOk result (string_bytes text.new
        ≡ string_bytes text.old ++ ended (line_text (event_line message.now queue))) }
{
    push_field(text, "{\"queue\":", queue.queue as u64)?;
    push_field(
        text,
        ",\"kind\":\"message\",\"previous\":\"",
        queue.previous,
    )?;
    text.push_str("\",\"headers\":")?;
    push_headers(text, message.headers())?;
    push_field(text, ",\"timestamp\":", message.properties().timestamp)?;
    text.push_str(",\"body\":")?;
    text.push_str(message.body())?;
    text.push_str("}\n")?;
    Ok(())
}

/// Adds the lines of a message in these queues.
fn push_messages(
    text: &mut String,
    queues: &[Predecessor],
    message: &Message,
) -> Result<(), AllocError>
    ensures { OnOk result (string_bytes text.new
        ≡ string_bytes text.old ++ lines_text (event_lines message.now queues.now)) }
{
    for queue in queues {
        push_message(text, *queue, message)?;
    }
    Ok(())
}

/// Adds the lines of an event in these queues, which take it.
pub(crate) fn push_event(
    alloc: Global,
    text: &mut String,
    queues: &[Predecessor],
    event: &Event,
) -> Result<(), AllocError>
    ensures { OnOk result (string_bytes text.new
        ≡ string_bytes text.old ++ lines_text (event_lines event.now queues.now)) }
{
    let message = Message::of(alloc, event)?;
    push_messages(text, queues, &message)
}

/// Adds the line of the end of the queue of this number, whose last event has this timestamp.
fn push_end(text: &mut String, queue: usize, place: u64) -> Result<(), AllocError>
    ensures { OnOk result (string_bytes text.new
        ≡ string_bytes text.old ++ ended (line_text (end_line queue place))) }
{
    push_field(text, "{\"queue\":", queue as u64)?;
    push_field(text, ",\"kind\":\"end\",\"previous\":\"", place)?;
    text.push_str("\",\"end\":true}\n")?;
    Ok(())
}

/// Adds the lines of the ends of queues, whose last events have these timestamps.
pub(crate) fn push_ends(text: &mut String, places: &[u64]) -> Result<(), AllocError>
    ensures { OnOk result (string_bytes text.new
        ≡ string_bytes text.old ++ lines_text (end_lines 1 places.now)) }
{
    for place in 0..places.len() {
        push_end(text, place + 1, places[place])?;
    }
    Ok(())
}
