//! Whatever carries the lines of a queue, and in whatever order, consumers that follow its chain keep a prefix of it.
#![tactic(auto)]

mod laws;

pub use laws::{queue_texts_are_of_queues, whatever_arrives_is_a_prefix};
