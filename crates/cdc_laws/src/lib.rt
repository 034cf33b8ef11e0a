//! Whatever is lost, delayed or repeated, the items that a broker takes are a replay of what the ledger publishes, so
//! each subscriber may rely on the prefix of its queue. These laws of lists are independent of the actors that send,
//! keep and take them. They are the postconditions of functions that do nothing. Also how a ledger is read for a
//! session.
#![tactic(auto)]

pub mod readings;
pub mod runs;
pub mod steps;
pub mod subscribers;

pub use readings::{Offer, read};
pub use runs::run_laws;
pub use steps::{broker_laws, connector_laws, delivery_laws};
pub use subscribers::{book_laws, subscriber_laws};
