//! What a subscriber actor holds, for the code that puts the actors of a run together.

use crate::subscriber::arrivals::Arrival;
use cdc_links::{LinkIn, LinkOut};
use cdc_subscriber::Subscriber;
use cdc_traffic::{ToBroker, ToSubscriber};

/// What is left of a subscriber actor that was taken apart.
#[derive(Drop)]
pub struct SubscriberParts {
    /// The subscriber's number, from 1.
    pub number: u64,
    pub inbox: LinkIn<ToSubscriber>,
    pub acks: LinkOut<ToBroker>,
    pub subscriber: Subscriber,
    /// What it was delivered until it closed, in order.
    pub arrivals: Vec<Arrival>,
}
