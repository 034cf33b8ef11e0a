//! In a turn an actor receives one message at most. The actors of a run are each for a thread: what each sends and
//! receives over its links, until it has finished or meets a fault. A call may wait; its contract states what holds if
//! it returns.
#![tactic(auto)]

mod broker;
mod client;
mod connector;
mod ends;
mod ledger;
pub mod met;
mod so_far;
pub mod stops;
mod subscriber;
pub mod turns;

pub use broker::BrokerEnd;
pub use cdc_actor_work::{Noted, Numbered, Place, RunFault, Turns, Work};
pub use cdc_broker_actors::{
    Arrival, BrokerParts, BrokerPlan, Carried, Consumer, Fate, Repeat, Repeats, Sending, Span,
    Story, SubscriberParts, broker_actor_laws, subscriber_actor_laws,
};
pub use cdc_connector_actor::{ConnectorParts, connector_actor_laws};
pub use cdc_ledger_actors::{ClientParts, LedgerParts, ledger_actor_laws, order_laws};
pub use client::ClientEnd;
pub use connector::ConnectorEnd;
pub use ends::End;
pub use ledger::LedgerEnd;
pub use met::Met;
pub use so_far::so_far_laws;
pub use stops::Stop;
pub use subscriber::SubscriberEnd;
pub use turns::Turn;
