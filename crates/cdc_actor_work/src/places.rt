//! The places of actors in a run.

/// The place of an actor in a run. Places are in this order, clients and subscribers by their numbers.
#[derive(Clone, Copy, Debug, PartialEq, Eq)]
pub enum Place {
    Ledger,
    /// A client, by its number, from 1.
    Client(u64),
    Connector,
    Broker,
    /// A subscriber, by its number, from 1.
    Subscriber(u64),
}
