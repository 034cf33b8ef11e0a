//! A trace or a diagram of a simulation has a line for each step, as it happened. The crate has what standard error
//! reports of a command besides what it prints, as texts: why items weren't accepted, why a step was refused, what each
//! step did, and what a file with an error must have. Nothing here reads or writes.
#![tactic(auto)]

mod bindings;
mod books;
mod diagram;
mod faults;
mod fields;
mod items;
mod letters;
mod movements;
mod nearest;
mod notes;
mod numbers;
mod observers;
mod phrases;
mod reasons;
mod recordings;
mod requirements;
mod results;
mod run_stories;
mod runs;
mod script_lines;
mod sentences;
mod step_lines;
mod steps;
mod texts;
mod traces;

pub use books::books_lines;
pub use faults::{script_fault_sentence, steps_fault_sentence};
pub use notes::notes_text;
pub use observers::{Observation, Observed, RefusedStep};
pub use recordings::Asked;
pub use run_stories::{repeat_lines, story_lines, subscriber_line};
pub use runs::{RunExplanation, Submitted, run_explanation};
pub use sentences::Sentence;
pub use steps::step_text;
