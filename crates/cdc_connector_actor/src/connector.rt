//! A connector actor's work: it polls the ledger for events and publishes them to the broker, session after session.

ghost use Rattle.cdc_connector_actor.specs.Connector.{FinishedConnectorsAreDone};

mod cores;
mod links;
mod rules;

pub use cores::{ConnectorCore, ConnectorParts};

/// Does nothing: its postcondition holds for whatever a connector actor keeps. Once it has finished, its last session
/// is done, and each of its packets has its confirm.
pub fn connector_actor_laws()
    ensures finished { FinishedConnectorsAreDone }
{}
