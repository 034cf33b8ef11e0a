//! A subscriber's close is the least one that a plan gives for it. The crate has what can be asked of a simulation and
//! of a run: the parameters of random steps, the window and prefetch of a run, and the faults that it is to meet.
#![tactic(auto)]

mod chances;
mod faults;
mod run_plans;

pub use chances::Chances;
pub use faults::Faults;
pub use run_plans::RunPlan;
