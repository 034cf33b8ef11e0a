//! A saved state of an audit reads back as what was saved, also from a log of it that is cut off, and no other text
//! does.
#![tactic(auto)]

pub mod laws;
pub mod logs;
pub mod parts;
pub mod printing;
pub mod rows;
pub mod saved;

pub use laws::{audited_events_fit, audits_can_be_saved, audits_go_on, logs_can_be_cut};
pub use logs::{base_text, read_log, record_text};
pub use printing::{push_event, push_state};
pub use rows::{ReadEvent, read_event};
pub use saved::{STATE_MARK, read_state};
