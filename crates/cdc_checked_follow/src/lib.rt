//! Following by checking applies, counts and stops as its definitions make of the stream's bytes. It checks each event
//! against its two accounts, with no help from the publisher.
#![tactic(auto)]

pub mod follower;
pub mod streams;
pub mod turns;

pub use follower::{CheckedFollower, Checking};
pub use streams::{CheckStop, check_line, check_stream};
pub use turns::CheckTurn;
