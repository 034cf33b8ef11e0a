//! What a subscriber of a run was delivered, by name.

ghost use Rattle.std.specs.Prelude.{◌≡◌};
ghost use Rattle.cdc_broker_actors.specs.Subscriber.{arrival_of};

use cdc_message::{Delivery, Item};

/// A delivery that a subscriber took.
#[derive(Clone, Copy, Debug, PartialEq, Eq)]
pub struct Arrival {
    /// The position in the subscriber's queue, counted from 1.
    pub position: u64,
    /// The event's timestamp in nanoseconds, by which it is known. None for the end mark.
    pub event: Option<u64>,
}

impl Arrival {
    pub(crate) fn of(delivery: &Delivery) -> Arrival
        ensures { result ≡ arrival_of delivery.now }
    {
        Arrival {
            position: delivery.position,
            event: match &delivery.item {
                Item::Event(message) => Some(message.timestamp()),
                Item::EndMark => None,
            },
        }
    }
}
