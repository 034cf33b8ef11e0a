//! What is written as a line of numbers and flags is read back. The crate has how such lines are written, and how they
//! are read.
#![tactic(auto)]

mod reading;
mod writing;

pub use reading::{flag, line, number, number_16, number_32, number_64, skip};
pub use writing::{write_flagged, write_named, write_spaced, write_text};
