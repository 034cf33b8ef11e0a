//! Subscriptions: a subscriber, with what is on its way to it.

ghost use Rattle.std.specs.Prelude.{◌≡◌, IfOk, List, [], map, replicate};
ghost use Rattle.cdc_world.specs.Parts.{subscription_parts};
ghost use Rattle.cdc_world.specs.Turns.{empty_subscription, HasClosed, TakesAt};

use crate::steps::StepError;
use cdc_message::Delivery;
use cdc_subscriber::{Subscriber, Taking};
use std::alloc::{AllocError, Global};
use std::collections::VecDeque;

/// A subscriber, the deliveries that are on their way to it in order, and the positions that it has acknowledged.
#[derive(Drop)]
pub(crate) struct Subscription {
    pub(crate) subscriber: Subscriber,
    pub(crate) flight: VecDeque<Delivery>,
    pub(crate) acks: Vec<u64>,
}

impl Subscription {
    /// Creates a subscription that nothing has come to.
    pub(crate) fn new(alloc: Global) -> Subscription
        ensures { subscription_parts result ≡ empty_subscription }
    {
        Subscription {
            subscriber: Subscriber::new(alloc),
            flight: VecDeque::new(alloc),
            acks: Vec::new(alloc),
        }
    }

    /// The subscriber takes the first delivery that is on its way to it, and acknowledges its position.
    pub(crate) fn take(&mut self, alloc: Global) -> Result<Taking, StepError>
        ensures { TakesAt (subscription_parts self.old) (subscription_parts self.old).flight result
            (subscription_parts self.new) }
    {
        let Some(delivery) = self.flight.front() else {
            return Err(StepError::NotEnabled);
        };
        self.acks.reserve(1)?;
        let taking = self
            .subscriber
            .take(alloc, delivery)
            .map_err(|_| StepError::OutOfMemory)?;
        self.acks.push_reserved(delivery.position);
        self.flight.pop_front();
        Ok(taking)
    }

    /// What is on its way to the subscriber is lost.
    pub(crate) fn lose_flight(&mut self)
        ensures { subscription_parts self.new
            ≡ record (subscription_parts self.old) { flight = [] } }
    {
        self.flight.clear();
    }

    /// The subscriber closes. What is on its way still comes to it.
    pub(crate) fn close(&mut self)
        ensures { HasClosed (subscription_parts self.old) (subscription_parts self.new) }
    {
        self.subscriber.close();
    }
}

/// Creates `count` subscriptions that nothing has come to.
pub(crate) fn empty_subscriptions(
    alloc: Global,
    count: usize,
) -> Result<Vec<Subscription>, AllocError>
    ensures { IfOk result (λ subscriptions. map subscription_parts subscriptions.items
        ≡ replicate count empty_subscription) }
{
    let mut subscriptions = Vec::with_capacity(alloc, count)?;
    for _ in 0..count {
        subscriptions.push_reserved(Subscription::new(alloc));
    }
    Ok(subscriptions)
}
