//! Random steps of a simulation, and the step file that has them, so a failure that they find is a file. No contract
//! states which steps are made: tests show that all can be taken.
#![tactic(auto)]

mod making;

pub use cdc_plans::Chances;
pub use making::{RandomSteps, random_steps};
