//! Numbers of options are within their limits. The crate has the arguments of the program: what they ask for, usage
//! errors, and help.
#![tactic(auto)]

mod arguments;
mod audit_options;
mod bindings;
mod chain_options;
mod command_line;
mod consume_options;
mod delivery_options;
mod follow_options;
mod help;
mod parsing;
mod random_options;
mod run_options;
mod slips;

pub use audit_options::AuditPlan;
pub use chain_options::ChainPlan;
pub use command_line::{Diagnostics, Form, Options, OptionsFault, RunDiagnostics};
pub use consume_options::ConsumePlan;
pub use follow_options::{FollowPlan, SqlPlan};
pub use parsing::{STANDARD_ERROR, STANDARD_INPUT, options};
