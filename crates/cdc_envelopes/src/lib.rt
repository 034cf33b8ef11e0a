//! What the fast reader reads is what the JSON reader would read, and it reads each line that `messages --queue` and
//! `chain` print. It reads events in envelopes, without a JSON value: those lines, deliveries, and objects with a body
//! and a predecessor.
#![tactic(auto)]

mod bodies;
mod envelopes;
mod fronts;
mod headers;
mod numbers;

pub use envelopes::{Enveloped, fast_envelope};
