//! If a run in threads returns a report, one order of all batches gives the ledger and each reply, and each subscriber
//! may rely on what the theorem states. The crate has its configuration, the links between its actors, one thread for
//! each actor, and what all of them come to.
#![tactic(auto)]

pub mod actors;
mod books;
pub mod configs;
pub mod counts;
pub mod determined;
pub mod ends;
pub mod failures;
pub mod gates;
mod jobs;
mod laws;
mod outcomes;
mod parts;
pub mod reports;
mod runs;
mod scopes;
mod scripted;
mod scripts;
mod settled_links;
mod streams;
mod subscribers;
mod task_jobs;
mod tasks;
mod turn_loop;
mod wires;
mod wiring;

pub use actors::Actor;
pub use cdc_actors::{
    Arrival, BrokerEnd, ClientEnd, ConnectorEnd, LedgerEnd, Met, Place, Repeats, RunFault, Stop,
    Story, SubscriberEnd, Turn,
};
pub use cdc_plans::Faults;
pub use cdc_traffic::Reply;
pub use configs::Config;
pub use counts::Counts;
pub use determined::determined_laws;
pub use ends::Ends;
pub use failures::Failure;
pub use gates::{Gate, OpenGate};
pub use laws::{passing_laws, settle_laws};
pub use reports::{Report, settle};
pub use runs::{run, run_explained};
pub use wiring::wire_up;
