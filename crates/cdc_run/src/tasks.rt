//! The actors of a run before they work, as one list in the order of their places.

use crate::scripted::Scripted;
use cdc_actors::{BrokerEnd, ConnectorEnd, LedgerEnd, SubscriberEnd};
use cdc_progress::ProgressStore;

/// An actor of a run, before it has worked.
#[derive(Drop)]
pub(crate) enum Task<S: ProgressStore> {
    Ledger(LedgerEnd),
    /// A client, with its script.
    Client(Scripted),
    Connector(ConnectorEnd<S>),
    Broker(BrokerEnd),
    Subscriber(SubscriberEnd),
}
