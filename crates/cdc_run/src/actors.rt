//! The actors of a run once they have finished.

use cdc_actors::{BrokerEnd, ClientEnd, ConnectorEnd, LedgerEnd, SubscriberEnd};
use cdc_progress::ProgressStore;

/// An actor of a run that has finished.
#[derive(Drop)]
pub enum Actor<S: ProgressStore> {
    Ledger(LedgerEnd),
    Client(ClientEnd),
    Connector(ConnectorEnd<S>),
    Broker(BrokerEnd),
    Subscriber(SubscriberEnd),
}
