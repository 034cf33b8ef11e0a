//! Each queue gets the lines of just the events that its binding takes, in order, each with the timestamp of the event
//! before it there; a chain that goes on from a saved place prints what it would have printed without a stop.
#![tactic(auto)]

mod chain;
mod laws;
mod lines;
mod streams;

pub use chain::{Chain, Chaining};
pub use laws::{each_queue_gets_its_lines, queue_lines_are_of_queues, streams_go_on};
pub use streams::{ChainStop, chain_line};
