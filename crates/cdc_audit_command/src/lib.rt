//! The audit that is reported is that of the stream's bytes, and each saved state is one that the store was given and
//! held. This is the command `audit`: whether a stream can be what a ledger published.
#![tactic(auto)]

mod auditors;
mod endings;
mod forms;
mod json_lines;
mod laws;
mod quiet;
mod refusals;
mod states;
mod turns;

pub use auditors::{AuditSetup, StreamAudit, StreamAuditor, audit_command};
pub use endings::{AuditEnding, audit_status};
pub use forms::AuditForm;
pub use laws::duplicates_are_left_out;
pub use states::{StateLog, resume};
