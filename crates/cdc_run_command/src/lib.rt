//! What is printed of a run is the text of its report, or the deliveries to one subscriber, and a failure is that of an
//! actor. This is the command `run`, as text and with `--json`: a script's batches, submitted by clients on threads,
//! and the books of its subscribers.
#![tactic(auto)]

mod arrivals;
pub mod failures;
mod faults;
mod lone_runs;
pub mod reports;
pub mod run;
pub mod run_contents;
pub mod run_forms;
mod run_objects;
mod run_report;
mod shares;

pub use arrivals::arrivals_of_run;
pub use cdc_plans::RunPlan;
pub use failures::RunFailed;
pub use lone_runs::lone_run_laws;
pub use reports::{Ran, report_of_run};
pub use run::{RunEnded, RunOutput, run_command, run_of, tally_of};
pub use run_contents::RunContent;
pub use run_forms::RunForm;
