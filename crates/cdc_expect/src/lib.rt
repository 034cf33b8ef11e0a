//! What is printed is the result of each line of the stream, as the follower or the checker takes it. This is the flag
//! `--expect` of `follow`, as JSON.
#![tactic(auto)]

mod checked_commands;
mod checked_turns;
mod commands;
mod lines;
mod turns;

pub use checked_commands::expect_checked_command;
pub use commands::expect_command;
