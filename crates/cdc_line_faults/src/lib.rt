//! A line of a stream that is no entry gets a sentence: what stands there, and what is expected. Only tests show which.
//! Nothing here reads or writes.
#![tactic(auto)]

mod members;
mod sentences;
mod shapes;

pub use sentences::{LineSentence, line_sentence};
