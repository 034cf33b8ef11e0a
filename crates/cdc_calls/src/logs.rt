//! Calls on logs, queues and indexes that may run out of memory, each made again if it was refused.

ghost use Rattle.std.specs.Prelude.{◌≡◌, OnErr};

use crate::tries::{Tried, first, second};
use cdc_expiry::DueIndex;
use cdc_log::EventLog;
use cdc_match::Binding;
use cdc_queue_lines::{Predecessors, message_lines, queue_lines};
use cdc_types::Event;
use std::alloc::Global;

/// Reserves room for 1,000 events, again if memory ran out.
pub fn reserved_log(log: &mut EventLog) -> Tried<()>
    ensures { OnErr result.last (result.refused ≡ 2) }
{
    match log.reserve(1000) {
        Ok(()) => first(()),
        Err(_) => second(log.reserve(1000)),
    }
}

/// Reserves room for 1,000 pending transfers, again if memory ran out.
pub fn reserved_index(index: &mut DueIndex) -> Tried<()>
    ensures { OnErr result.last (result.refused ≡ 2) }
{
    match index.reserve(1000) {
        Ok(()) => first(()),
        Err(_) => second(index.reserve(1000)),
    }
}

/// Reads the first ten events of a log, again if memory ran out.
pub fn read_events(alloc: Global, log: &EventLog) -> Tried<Vec<Event>>
    ensures { OnErr result.last (result.refused ≡ 2) }
{
    match log.read_after(alloc, 0, 10) {
        Ok(events) => first(events),
        Err(_) => second(log.read_after(alloc, 0, 10)),
    }
}

/// Makes the JSON lines of a queue, again if memory ran out.
pub fn lines_of_queue(alloc: Global, log: &EventLog, binding: &Binding) -> Tried<Vec<u8>>
    ensures { OnErr result.last (result.refused ≡ 2) }
{
    match queue_lines(alloc, log, binding) {
        Ok(lines) => first(lines),
        Err(_) => second(queue_lines(alloc, log, binding)),
    }
}

/// Makes the JSON lines of all messages, again if memory ran out.
pub fn lines_of_messages(alloc: Global, log: &EventLog, bindings: &[Binding]) -> Tried<Vec<u8>>
    ensures { OnErr result.last (result.refused ≡ 2) }
{
    match message_lines(alloc, log, bindings) {
        Ok(lines) => first(lines),
        Err(_) => second(message_lines(alloc, log, bindings)),
    }
}

/// Makes the predecessors of queues, again if memory ran out.
pub fn made_predecessors(alloc: Global, bindings: &[Binding]) -> Tried<Predecessors>
    ensures { OnErr result.last (result.refused ≡ 2) }
{
    match Predecessors::new(alloc, bindings) {
        Ok(made) => first(made),
        Err(_) => second(Predecessors::new(alloc, bindings)),
    }
}
