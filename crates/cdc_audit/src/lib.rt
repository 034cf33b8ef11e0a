//! An audit stops at the first event that breaks a rule, and names the first rule that the event breaks: whether each
//! event of a stream follows from the events before it.
#![tactic(auto)]

pub mod apart;
pub mod auditor;
pub mod checks;
pub mod expiries;
pub mod fields;
pub mod foreign;
pub mod limits;
pub mod open_ones;
pub mod refusals;
pub mod rooms;
pub mod settling;
pub mod shapes;
pub mod streams;
pub mod texts;

pub use auditor::{Auditor, AuditorParts};
pub use checks::Stored;
pub use fields::FixedFields;
pub use open_ones::OpenOnes;
pub use refusals::{BalanceField, Excess, FieldMismatch, FixedField, Mismatch, Refusal, Side};
pub use streams::{AuditStop, audit, audit_line};
pub use texts::push_refusal;
