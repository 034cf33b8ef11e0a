//! A session sends the events that it is offered in order, under rising tags, and saves a place only after all up to it
//! were confirmed.
#![tactic(auto)]

pub mod errors;
mod laws;
pub mod session;

pub use errors::StartError;
pub use laws::poll_laws;
pub use session::{Poll, Session};
