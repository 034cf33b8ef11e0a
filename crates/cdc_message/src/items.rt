//! Items, which the broker delivers to subscribers: the message of an event, or the end mark.

ghost use Rattle.std.specs.Prelude.{◌≡◌, IfOk, IsSome, OnErr};
ghost use Rattle.cdc_message.specs.Items.{item_event};

use crate::message::Message;
use std::alloc::{AllocError, Global};

/// What the connector publishes and the broker keeps. Contracts see the event of a message.
#[derive(Drop)]
pub enum Item {
    Event(Message),
    /// The ledger is closed, and the messages of all its events came before.
    EndMark,
}

/// An item as a queue delivers it.
#[derive(Drop)]
pub struct Delivery {
    /// The item's position in its queue, counted from 1.
    pub position: u64,
    pub item: Item,
}

impl Item {
    /// An equal item in memory of its own. Only copying a message allocates, so an end mark can always be copied.
    pub fn try_copy(&self, alloc: Global) -> Result<Item, AllocError>
        ensures copy { IfOk result (λ copy. copy ≡ self.now) }
        ensures memory { OnErr result (IsSome (item_event self.now)) }
    {
        match self {
            Item::Event(message) => Ok(Item::Event(message.try_copy(alloc)?)),
            Item::EndMark => Ok(Item::EndMark),
        }
    }
}

impl Delivery {
    /// An equal delivery in memory of its own. Only copying a message allocates, so the delivery of an end mark can
    /// always be copied.
    pub fn try_copy(&self, alloc: Global) -> Result<Delivery, AllocError>
        ensures copy { IfOk result (λ copy. copy ≡ self.now) }
        ensures memory { OnErr result (IsSome (item_event self.now.item)) }
    {
        Ok(Delivery {
            position: self.position,
            item: self.item.try_copy(alloc)?,
        })
    }
}
