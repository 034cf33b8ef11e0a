//! The steps of deliveries.

ghost use Rattle.std.specs.Prelude.{◌≡◌};
ghost use Rattle.cdc_deliveries.specs.Arrivals.{subscriber_of};

use cdc_subscriber::Taking;
use cdc_world::ItemName;

/// What a step did with the deliveries to one subscriber.
#[derive(Clone, Copy, Debug, PartialEq, Eq)]
pub enum DeliveryStep {
    /// The subscriber's queue sent the item at this position.
    Sent {
        subscriber: u64,
        position: u64,
    },
    /// All deliveries in flight were lost.
    Lost {
        subscriber: u64,
    },
    /// The subscriber took the first delivery in flight, the item at this position, and answered so.
    Taken {
        subscriber: u64,
        position: u64,
        item: ItemName,
        answer: Taking,
    },
}

impl DeliveryStep {
    /// The number of the subscriber, from 1.
    pub fn subscriber(self) -> u64
        ensures { result ≡ subscriber_of self }
    {
        match self {
            DeliveryStep::Sent { subscriber, .. }
            | DeliveryStep::Lost { subscriber }
            | DeliveryStep::Taken { subscriber, .. } => subscriber,
        }
    }
}
