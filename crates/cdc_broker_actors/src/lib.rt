//! Each subscriber actor receives a prefix of its queue's deliveries, which are a replay of the queue. The crate has
//! the broker actor and the subscriber actors of a run: what each does over its links, without its faults.
#![tactic(auto)]

mod broker;
pub mod stories;
mod subscriber;

pub use broker::{BrokerCore, BrokerParts, BrokerPlan, Consumer, broker_actor_laws};
pub use stories::{Carried, Fate, Repeat, Repeats, Sending, Span, Story};
pub use subscriber::{Arrival, SubscriberCore, SubscriberParts, subscriber_actor_laws};
