//! Wherever a run is cut off, each subscriber is faithful; and a close decides what a subscriber keeps. These are laws
//! on what a run and a world promise in the end, and what actors have sent when a run is cut off.
#![tactic(auto)]

mod actors;
mod subscribers;
mod tries;

pub use actors::{
    actors_lack_one_message, cut_off_runs_are_faithful, finished_ledgers_reply_to_all,
};
pub use subscribers::{books_are_the_ledgers, closes_decide};
pub use tries::refused_steps_failed_each_time;
