//! The steps that are kept of a step file are those that a simulation can take: so any part of a step file is one.
#![tactic(auto)]

mod enabled;

pub use enabled::{EnabledSteps, enabled_steps};
