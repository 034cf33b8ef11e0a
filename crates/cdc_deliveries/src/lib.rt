//! The deliveries that are printed are those that one subscriber takes in a simulation up to its close, in order, with
//! what must come of each of them. They are JSON lines.
#![tactic(auto)]

pub mod arrivals;
pub mod asked;
pub mod counts;
mod expected;
pub mod feeds;
mod lines;
pub mod pairs;
pub mod recorder;
pub mod steps;

pub use arrivals::{Arrival, arrivals_of};
pub use asked::Asked;
pub use counts::{Count, count_of};
pub use expected::expected_lines;
pub use lines::delivery_lines;
pub use pairs::Both;
pub use recorder::Recorder;
pub use steps::DeliveryStep;
