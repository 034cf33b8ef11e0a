//! A broker takes just the items of the latest session, in the order of their tags, and a queue skips no item and
//! delivers none again that was acknowledged. Each item is added to the queues whose bindings match it.
#![tactic(auto)]

mod backlog;
mod broker;
mod laws;
mod queue;

pub use broker::{Broker, Refusal, Taken};
pub use laws::acknowledgement_laws;
