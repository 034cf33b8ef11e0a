//! The command that follows a stream by checking it keeps, stops, counts, saves and prints what its definitions make of
//! the stream's bytes.
#![tactic(auto)]

pub mod books;
pub mod checkers;
pub mod endings;
pub mod forms;
mod json_lines;
mod quiet;
pub mod resuming;

pub use books::CheckedLog;
pub use checkers::{BoundFollower, CheckSetup, StreamChecker, check_command};
pub use endings::{CheckEnding, check_status};
pub use forms::CheckForm;
pub use resuming::resume;
