//! The actors of a run.

use cdc_actors::{BrokerEnd, ClientEnd, ConnectorEnd, LedgerEnd, SubscriberEnd};
use cdc_progress::ProgressStore;

/// All actors of a run. Clients and subscribers are in the order of their numbers, from 1.
#[derive(Drop)]
pub struct Ends<S: ProgressStore> {
    pub ledger: LedgerEnd,
    pub clients: Vec<ClientEnd>,
    pub connector: ConnectorEnd<S>,
    pub broker: BrokerEnd,
    pub subscribers: Vec<SubscriberEnd>,
}
