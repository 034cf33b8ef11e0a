//! The command `simulate` as the program runs it: its files, and what standard error reports. Its functions have few
//! contracts: tests of the program cover them.
#![tactic(auto)]

mod diagnostics;
mod enabled;
mod observers;
mod pictures;
mod random;
mod simulation;

pub use observers::Observers;
pub use random::run_random;
pub use simulation::{Wanted, run_simulation};
