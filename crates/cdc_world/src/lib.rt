//! After any sequence of steps, each subscriber may rely on what the theorem states. The world has all actors: ledger,
//! connector, broker and subscribers, moved one action of one actor at a time.
#![tactic(auto)]

mod actors;
mod broker;
mod connector;
pub mod laws;
pub mod moved;
mod movements;
mod refusals;
pub mod steps;
mod subscriptions;
pub mod world;

pub use cdc_types::{EventTimestamp, Step};
pub use laws::world_laws;
pub use moved::{ItemName, Moved, PacketName};
pub use steps::{Did, StepError};
pub use world::{Played, World};
