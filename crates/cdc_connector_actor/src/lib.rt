//! What the connector actor has sent is what a connector may send of the ledger's events, however often it restarted.
//! The crate has what it does over its links, without its faults.
#![tactic(auto)]

mod connector;

pub use connector::{ConnectorCore, ConnectorParts, connector_actor_laws};
