//! The calls that make or move something and may run out of memory, each made again if it was refused.

ghost use Rattle.std.specs.Prelude.{◌≡◌, ◌≤◌, OnErr, length};

use crate::tries::{Tried, first, second};
use cdc_broker::{Broker, Taken};
use cdc_ledger::Ledger;
use cdc_match::Binding;
use cdc_message::{Delivery, Item, Message};
use cdc_script::{Script, parse_script};
use cdc_subscriber::{Subscriber, Taking};
use cdc_types::{Batch, BatchResults, Event};
use std::alloc::{AllocError, Global};

/// Makes the message of an event, again if memory ran out.
pub fn message_of(alloc: Global, event: &Event) -> Tried<Message>
    ensures { OnErr result.last (result.refused ≡ 2) }
{
    match Message::of(alloc, event) {
        Ok(message) => first(message),
        Err(_) => second(Message::of(alloc, event)),
    }
}

/// Reads a binding, again if it was refused.
pub fn parsed_binding(alloc: Global, words: &[&str]) -> Tried<Binding>
    ensures { OnErr result.last (result.refused ≡ 2) }
{
    match Binding::parse(alloc, words) {
        Ok(binding) => first(binding),
        Err(_) => second(Binding::parse(alloc, words).or(Err(AllocError))),
    }
}

/// Reads a script, again if it was refused.
pub fn parsed_script(alloc: Global, text: &[u8]) -> Tried<Script>
    ensures { OnErr result.last (result.refused ≡ 2) }
{
    match parse_script(alloc, text) {
        Ok(script) => first(script),
        Err(_) => second(parse_script(alloc, text).or(Err(AllocError))),
    }
}

/// Submits a batch, again if it was refused as a whole.
pub fn submitted(alloc: Global, ledger: &mut Ledger, batch: &Batch) -> Tried<BatchResults>
    ensures { OnErr result.last (result.refused ≡ 2) }
{
    match ledger.submit(alloc, batch) {
        Ok(results) => first(results),
        Err(_) => second(ledger.submit(alloc, batch).or(Err(AllocError))),
    }
}

/// Publishes an item under the first tag of connection 1, and its copy if memory ran out.
pub fn published(alloc: Global, broker: &mut Broker, item: Item, copy: Item) -> Tried<Taken>
    ensures { OnErr result.last (result.refused ≡ 2) }
{
    match broker.publish(alloc, 1, 1, item) {
        Ok(taken) => first(taken),
        Err(_) => second(broker.publish(alloc, 1, 1, copy)),
    }
}

/// Takes the next delivery of the first queue, again if memory ran out.
pub fn delivered(alloc: Global, broker: &mut Broker) -> Tried<Option<Delivery>>
    requires { 1 ≤ length broker.old.queues }
    ensures { OnErr result.last (result.refused ≡ 2) }
{
    match broker.next_for(alloc, 1) {
        Ok(delivery) => first(delivery),
        Err(_) => second(broker.next_for(alloc, 1)),
    }
}

/// Has a subscriber take a delivery, again if it was refused.
pub fn taken(alloc: Global, subscriber: &mut Subscriber, delivery: &Delivery) -> Tried<Taking>
    ensures { OnErr result.last (result.refused ≡ 2) }
{
    match subscriber.take(alloc, delivery) {
        Ok(taking) => first(taking),
        Err(_) => second(subscriber.take(alloc, delivery).or(Err(AllocError))),
    }
}
