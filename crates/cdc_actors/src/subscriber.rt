//! A subscriber actor: it takes what its queue delivers, and acknowledges each delivery.

ghost use Rattle.std.specs.Prelude.{◌≡◌, ◌<◌, []};
ghost use Rattle.cdc_actors.specs.Ends.{new_end};
ghost use Rattle.cdc_broker_actors.specs.Subscriber.{first_subscriber};

use crate::ends::End;
use cdc_broker_actors::SubscriberCore;
use cdc_links::{LinkIn, LinkOut};
use cdc_traffic::{ToBroker, ToSubscriber};
use std::alloc::Global;

/// A subscriber actor of a run. Its work is the subscriber over its links: its number, what it has received and
/// acknowledged, what it keeps, after how many events it is to close, whether it has finished, and what it was
/// delivered until it closed.
///
/// A turn receives one message from the broker. A delivery is taken and then acknowledged, also by a subscriber that
/// is closed. A subscriber that has applied as many events as it was asked to closes in between. At the broker's last
/// message the actor has finished, and receives nothing from then on. `PeerGone`: a link refused to deliver a message
/// or to take an acknowledgement. `OutOfMemory`: a delivery wasn't taken.
pub type SubscriberEnd = End<SubscriberCore>;

impl SubscriberEnd {
    /// The actor of a subscriber to which nothing has come yet. Its endpoint of the link to the broker has the
    /// subscriber's number. It closes after `close_after` events, counted from 1; with None or 0 it never closes.
    pub fn new(
        alloc: Global,
        system: u64,
        number: u64,
        inbox: LinkIn<ToSubscriber>,
        acks: LinkOut<ToBroker>,
        close_after: Option<u64>,
    ) -> SubscriberEnd
        requires first { 0 < number }
        requires own { acks.number ≡ number }
        requires silent { acks.sent ≡ [] }
        requires fresh { inbox.received ≡ [] }
        requires alone { inbox.senders ≡ 1 }
        ensures { result ≡ new_end system (first_subscriber number inbox acks close_after) }
    {
        End::of(
            system,
            SubscriberCore::new(alloc, number, inbox, acks, close_after),
        )
    }
}
