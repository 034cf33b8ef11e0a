//! A log of saved books that is cut off anywhere after its base reads back as the last book that was saved whole. A log
//! is a base, and a record for each later save, which has what changed since the one before.
#![tactic(auto)]

mod accounts;
pub mod details;
pub mod laws;
pub mod logs;
mod places;
pub mod records;
mod replaying;
mod tracking;

pub use details::Details;
pub use logs::{SavedLog, read_log};
pub use records::{record_text, without_accounts};
pub use tracking::Tracked;
