//! The command `run` as the program runs it: its files and its threads, and what standard error reports. Its functions
//! have few contracts: tests of the program cover them.
#![tactic(auto)]

mod progress_advice;
mod run;
mod run_advice;
mod run_faults;
mod run_places;
mod run_traces;
mod run_turns;

pub use run::{WantedRun, run_on_threads};
