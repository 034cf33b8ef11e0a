//! Each message of a run in threads follows from what its sender sent and received before. Contracts state the content
//! of each message, the history that it names, and who may send it when.
#![tactic(auto)]

mod laws;
mod messages;
pub mod pasts;
pub mod polls;
pub mod requests;

pub use laws::traffic_laws;
pub use messages::{Ack, ToBroker, ToConnector, ToLedger, ToSubscriber};
pub use pasts::Past;
pub use polls::{Poll, PollReply};
pub use requests::{Reply, Request};
