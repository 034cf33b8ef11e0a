//! The JSON lines of all messages, each with the queues that take it.

ghost use Rattle.std.specs.Prelude.{◌≡◌, ◌<◌, ◌++◌, IfOk, OnErr, OnOk, length, string_bytes};
ghost use Rattle.cdc_queue_lines.specs.Lines.{ended};
ghost use Rattle.cdc_queue_lines.specs.Messages.{messages_text, queue_text, queued_line, queues_text};

use crate::lines::{push_field, push_headers};
use crate::predecessors::{Predecessor, Predecessors};
use cdc_log::EventLog;
use cdc_match::Binding;
use cdc_message::Message;
use cdc_types::Event;
use std::alloc::{AllocError, Global};

/// The JSON lines of the messages of a log, one for each event, in order. A line has the queues of these bindings that
/// take the message, each with the timestamp of the message before it there. An error means out of memory; without
/// events no memory is needed.
pub fn message_lines(
    alloc: Global,
    log: &EventLog,
    bindings: &[Binding],
) -> Result<Vec<u8>, AllocError>
    ensures lines { IfOk result (λ text. text.items ≡ messages_text bindings.now log.now.events) }
    ensures memory { OnErr result (0 < length log.now.events) }
{
    let mut text = String::new(alloc);
    if !log.is_empty() {
        push_messages(alloc, &mut text, log, bindings)?;
    }
    Ok(text.into_bytes())
}

/// Adds the line of each event.
fn push_messages(
    alloc: Global,
    text: &mut String,
    log: &EventLog,
    bindings: &[Binding],
) -> Result<(), AllocError>
    ensures { OnOk result (string_bytes text.new
        ≡ string_bytes text.old ++ messages_text bindings.now log.now.events) }
{
    let mut predecessors = Predecessors::new(alloc, bindings)?;
    for place in 0..log.len() {
        if let Some(event) = log.get(place) {
            predecessors.advance(bindings, event);
            push_message(alloc, text, event, predecessors.found())?;
        }
    }
    Ok(())
}

/// Adds the line of an event that these queues take.
fn push_message(
    alloc: Global,
    text: &mut String,
    event: &Event,
    queues: &[Predecessor],
) -> Result<(), AllocError>
    ensures { OnOk result (string_bytes text.new
        ≡ string_bytes text.old ++ ended (queued_line queues.now event.now)) }
{
    let message = Message::of(alloc, event)?;
    text.push_str("{\"kind\":\"message\",\"headers\":")?;
    push_headers(text, message.headers())?;
    push_field(text, ",\"timestamp\":", message.properties().timestamp)?;
    text.push_str(",\"queues\":[")?;
    push_queues(text, queues)?;
    text.push_str("],\"body\":")?;
    text.push_str(message.body())?;
    text.push_str("}\n")?;
    Ok(())
}

/// Adds an object for each queue, with commas between them.
fn push_queues(text: &mut String, queues: &[Predecessor]) -> Result<(), AllocError>
    ensures { OnOk result (string_bytes text.new ≡ string_bytes text.old ++ queues_text queues.now) }
{
    for place in 0..queues.len() {
        if place > 0 {
            text.push_str(",")?;
        }
        push_queue(text, &queues[place])?;
    }
    Ok(())
}

/// Adds the object of a queue that takes an event.
fn push_queue(text: &mut String, queue: &Predecessor) -> Result<(), AllocError>
    ensures { OnOk result (string_bytes text.new ≡ string_bytes text.old ++ queue_text queue.now) }
{
    push_field(text, "{\"queue\":", queue.queue as u64)?;
    push_field(text, ",\"previous\":\"", queue.previous)?;
    text.push_str("\"}")?;
    Ok(())
}
