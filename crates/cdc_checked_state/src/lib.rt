//! A saved state of checked following reads back as what was saved, also from a log of it that is cut off, and no other
//! text does.
#![tactic(auto)]

pub mod laws;
pub mod logs;
pub mod parts;
pub mod printing;
pub mod rows;
pub mod saved;

pub use laws::{followed_events_fit, followers_can_be_saved, logs_can_be_cut};
pub use logs::{base_text, read_log, record_text};
pub use printing::{push_book, push_state};
pub use saved::{CHECKED_MARK, SavedState, are_same, read_state};
