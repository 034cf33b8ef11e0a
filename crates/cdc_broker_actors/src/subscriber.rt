//! A subscriber actor's work: it takes what its queue delivers, and acknowledges each delivery.

ghost use Rattle.cdc_broker_actors.specs.Subscriber.{AskedClose, DeliveriesAreReceived, UnaskedStayOpen};

mod arrivals;
mod cores;
mod parts;

pub use arrivals::Arrival;
pub use cores::SubscriberCore;
pub use parts::SubscriberParts;

/// Does nothing: its postconditions hold for whatever deliveries a subscriber takes. It receives them as they come
/// until it closes or has received the end mark. It never closes unless asked to. One that is asked to close after a
/// number of events is closed exactly when it has applied that many.
pub fn subscriber_actor_laws()
    ensures receives { DeliveriesAreReceived }
    ensures unasked { UnaskedStayOpen }
    ensures asked { AskedClose }
{}
