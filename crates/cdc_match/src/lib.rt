//! A binding takes just the messages whose headers match its pairs. If a broker's input is a replay of what the ledger
//! publishes, what it puts into a queue is one of what the ledger publishes for that queue. The crate has bindings,
//! which decide by their headers which messages go to a queue.
#![tactic(auto)]

mod binding;
pub mod errors;
mod keys;
mod laws;
pub mod pairs;

pub use binding::Binding;
pub use errors::BindError;
pub use laws::queue_laws;
pub use pairs::{Mode, Pair};
