//! The command `consume` as the program runs it: its password, book and report, and what standard error reports. Its
//! functions have few contracts: tests of the program cover them.
#![tactic(auto)]

mod advice;
mod consume;
mod credentials;
mod reports;
mod settings;

pub use consume::run_consume;
