//! The commands `follow`, `audit` and `chain` as the program runs them: their files, and what standard error reports.
//! Its functions have few contracts: tests of the program cover them.
#![tactic(auto)]

mod audit;
mod chain;
mod checked;
mod expect;
mod expect_checked;
mod failures;
mod follow;
mod follow_advice;
mod held;
mod kept_book;
mod keys;
mod lines;
mod recent;
mod refusals;
mod sql;
mod watched;

pub use audit::run_audit;
pub use chain::run_chain;
pub use checked::run_checked;
pub use follow::{open_book, run_follow};
pub use follow_advice::{advise_on_book, advise_on_stream};
pub use kept_book::{BookFile, KeptBook, RowBook, is_in_sqlite};
pub use keys::random_key;
