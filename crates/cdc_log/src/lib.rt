//! A log is the list of all events that were pushed, in timestamp order, and a push into reserved memory can't fail.
#![tactic(auto)]

pub mod log;
mod segment;

pub use log::EventLog;
