//! The subscribers of a closed ledger. Its events are published to a broker, and each is taken before the next one is
//! published, so that the broker holds few of them at a time.

ghost use Rattle.std.specs.Prelude.{◌≡◌, ◌^◌, ◌<◌, ◌≤◌, ◌++◌, ◌∷◌, [], List, true, IfOk, OnOk, Some, length, map};
ghost use Rattle.cdc_broker.specs.Broker.{published as with_published};
ghost use Rattle.cdc_broker.specs.Packets.{tag_after};
ghost use Rattle.cdc_laws.specs.Line.{emitted};
ghost use Rattle.cdc_match.specs.Arguments.{Arguments};
ghost use Rattle.cdc_message.specs.declared.items.Item.{Item as SomeItem};
ghost use Rattle.cdc_commands.specs.Feeds.{kept_by};
ghost use Rattle.cdc_commands.specs.Private.Takers.{AreFed, TakesDelivery};

use cdc_broker::Broker;
use cdc_log::EventLog;
use cdc_match::Binding;
use cdc_message::{Item, Message};
use cdc_subscriber::{Subscriber, TakeError};
use std::alloc::{AllocError, Global};

/// The number of the only connection.
const CONNECTION: u64 = 1;

/// Creates a subscriber for each binding, which has taken its whole queue of the events of a closed ledger and the end
/// mark.
pub fn subscribers_of_log(
    alloc: Global,
    bindings: Vec<Binding>,
    log: &EventLog,
) -> Result<Vec<Subscriber>, AllocError>
    requires { length log.now.events < 2 ^ 63 }
    ensures { IfOk result (λ subscribers. subscribers.items
        ≡ map (kept_by (emitted log.now.events true)) bindings.items) }
{
    let mut subscribers = new_subscribers(alloc, bindings.as_slice())?;
    let mut broker = Broker::new(alloc, bindings)?;
    broker.connect(CONNECTION);
    for place in 0..log.len() {
        if let Some(event) = log.get(place) {
            let item = Item::Event(Message::of(alloc, event)?);
            feed(
                alloc,
                &mut broker,
                subscribers.as_mut_slice(),
                place as u64 + 1,
                item,
            )?;
        }
    }
    let last = log.len() as u64 + 1;
    feed(
        alloc,
        &mut broker,
        subscribers.as_mut_slice(),
        last,
        Item::EndMark,
    )?;
    Ok(subscribers)
}

/// Creates a subscriber for each binding, which has received nothing.
fn new_subscribers(alloc: Global, bindings: &[Binding]) -> Result<Vec<Subscriber>, AllocError>
    ensures { IfOk result (λ subscribers. subscribers.items ≡ map (kept_by []) bindings.now) }
{
    let mut subscribers = Vec::with_capacity(alloc, bindings.len())?;
    for _ in bindings {
        subscribers.push(Subscriber::new(alloc))?;
    }
    Ok(subscribers)
}

/// Publishes an item under this tag. Each subscriber that its queue then delivers it to takes and acknowledges it.
fn feed(
    alloc: Global,
    broker: &mut Broker,
    subscribers: &mut [Subscriber],
    tag: u64,
    item: Item,
) -> Result<(), AllocError>
    requires connected { broker.old.connection ≡ 1 }
    requires next { broker.old.expected ≡ Some tag }
    requires each { length subscribers.old ≡ length broker.old.queues }
    ensures fed { (bindings : List Arguments) → (items : List SomeItem)
        → AreFed bindings items broker.old subscribers.old
        → OnOk result (AreFed bindings (items ++ item ∷ []) broker.new subscribers.new) }
    ensures connected { OnOk result (broker.new.connection ≡ 1) }
    ensures next { OnOk result (broker.new.expected ≡ tag_after tag) }
{
    publish(alloc, broker, tag, item)?;
    for place in 0..subscribers.len() {
        take_next(alloc, broker, place + 1, &mut subscribers[place])?;
    }
    Ok(())
}

/// Publishes an item under this tag.
fn publish(alloc: Global, broker: &mut Broker, tag: u64, item: Item) -> Result<(), AllocError>
    requires connected { broker.old.connection ≡ 1 }
    requires next { broker.old.expected ≡ Some tag }
    ensures { OnOk result (broker.new ≡ with_published tag item broker.old) }
{
    broker.publish(alloc, CONNECTION, tag, item)?;
    Ok(())
}

/// Lets a subscriber take what a queue delivers next, and acknowledge it.
fn take_next(
    alloc: Global,
    broker: &mut Broker,
    i: usize,
    subscriber: &mut Subscriber,
) -> Result<(), AllocError>
    requires first { 0 < i }
    requires last { i ≤ length broker.old.queues }
    ensures { OnOk result (TakesDelivery i broker.old broker.new subscriber.old subscriber.new) }
{
    if let Some(delivery) = broker.next_for(alloc, i)? {
        subscriber.take(alloc, &delivery).map_err(out_of_memory)?;
        broker.ack(i, delivery.position);
    }
    Ok(())
}

/// Converts the only error that taking a delivery can have.
fn out_of_memory(_error: TakeError) -> AllocError {
    AllocError
}
