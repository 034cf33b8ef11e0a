//! The events of a ledger, as JSON.

ghost use Rattle.std.specs.Prelude.{◌≡◌, ◌++◌, OnOk, drop, flat_map};
ghost use Rattle.cdc_page.specs.Events.{event_json, events_json, taken_flag};

use cdc_log::EventLog;
use cdc_match::Binding;
use cdc_message::{encode, headers_of};
use cdc_page_text::push;
use cdc_types::Event;
use std::alloc::{AllocError, Global};

/// Adds the events of a log from this place on, each after a comma.
pub(crate) fn push_events(
    alloc: Global,
    page: &mut Vec<u8>,
    bindings: &[Binding],
    log: &EventLog,
    from: usize,
) -> Result<(), AllocError>
    ensures { OnOk result (page.new.items
        ≡ page.old.items ++ events_json bindings.now (drop from log.now.events)) }
{
    for place in from..log.len() {
        if let Some(event) = log.get(place) {
            push_event(alloc, page, bindings, event)?;
        }
    }
    Ok(())
}

/// Adds an event: for each subscriber whether its binding takes the event, and the body of its message.
fn push_event(
    alloc: Global,
    page: &mut Vec<u8>,
    bindings: &[Binding],
    event: &Event,
) -> Result<(), AllocError>
    ensures { OnOk result (page.new.items ≡ page.old.items ++ event_json bindings.now event.now) }
{
    push(page, ",\n{\"queues\":\"")?;
    push_flags(page, bindings, event)?;
    push(page, "\",\"body\":")?;
    push(page, encode(alloc, event)?.as_str())?;
    push(page, "}")
}

/// Adds a flag for each subscriber.
fn push_flags(page: &mut Vec<u8>, bindings: &[Binding], event: &Event) -> Result<(), AllocError>
    ensures { OnOk result (page.new.items
        ≡ page.old.items ++ flat_map (taken_flag event.now) bindings.now) }
{
    for binding in bindings {
        push_flag(page, binding, event)?;
    }
    Ok(())
}

fn push_flag(page: &mut Vec<u8>, binding: &Binding, event: &Event) -> Result<(), AllocError>
    ensures { OnOk result (page.new.items ≡ page.old.items ++ taken_flag event.now binding.now) }
{
    push(
        page,
        if binding.matches(&headers_of(event)) {
            "1"
        } else {
            "0"
        },
    )
}
