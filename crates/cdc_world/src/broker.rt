//! What comes to the broker, and what its queues deliver.

ghost use Rattle.std.specs.Prelude.{◌<◌, ◌≤◌, length};
ghost use Rattle.cdc_broker.specs.Broker.{queue_of};
ghost use Rattle.cdc_broker.specs.Queues.{next_delivery};
ghost use Rattle.cdc_message.specs.declared.packets.Packet.TheVariants.{Publish as PublishOf};
ghost use Rattle.cdc_world.specs.Parts.{subscription_parts};
ghost use Rattle.cdc_world.specs.Turns.{ComesTo, DeliversAt};

use crate::steps::StepError;
use crate::subscriptions::Subscription;
use cdc_broker::{Broker, Taken};
use cdc_message::{Answer, Confirm, Item, Packet};
use std::alloc::{AllocError, Global};

/// A packet comes to the broker, which confirms an item that it takes. Returns whether it was taken.
pub(crate) fn take_in(
    alloc: Global,
    broker: &mut Broker,
    confirms: &mut Vec<Confirm>,
    packet: &Packet,
) -> Result<bool, AllocError>
    ensures { ComesTo broker.old confirms.old.items packet.now result
        broker.new confirms.new.items }
{
    match packet {
        Packet::Connect { session } => Ok(broker.connect(*session)),
        Packet::Publish { session, tag, item } => {
            take_item(alloc, broker, confirms, *session, *tag, item)
        }
    }
}

/// An item comes to the broker. Returns whether it was taken.
fn take_item(
    alloc: Global,
    broker: &mut Broker,
    confirms: &mut Vec<Confirm>,
    session: u64,
    tag: u64,
    item: &Item,
) -> Result<bool, AllocError>
    ensures { ComesTo broker.old confirms.old.items (PublishOf session tag item.now) result
        broker.new confirms.new.items }
{
    confirms.reserve(1)?;
    let copy = item.try_copy(alloc)?;
    match broker.publish(alloc, session, tag, copy)? {
        Taken::Accepted => {
            confirms.push_reserved(Confirm {
                session,
                answer: Answer::Confirmed(tag),
            });
            Ok(true)
        }
        Taken::Ignored(_) => Ok(false),
    }
}

/// Queue `i` of the broker, from 1 on, makes its next delivery.
pub(crate) fn deliver(
    alloc: Global,
    broker: &mut Broker,
    i: usize,
    subscription: &mut Subscription,
) -> Result<(), StepError>
    requires first { 0 < i }
    requires last { i ≤ length broker.old.queues }
    ensures { DeliversAt i broker.old (subscription_parts subscription.old)
        (next_delivery (queue_of broker.old i)) result
        broker.new (subscription_parts subscription.new) }
{
    if !broker.has_next(i) {
        return Err(StepError::NotEnabled);
    }
    subscription.flight.reserve(1)?;
    if let Some(delivery) = broker.next_for(alloc, i)? {
        subscription.flight.push_back_reserved(delivery);
    }
    Ok(())
}
