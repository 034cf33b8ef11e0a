//! A script or step file is read by its grammar, or refused with its first fault and the place of it.
#![tactic(auto)]

mod bindings;
mod drafts;
mod faults;
mod fields;
mod letters;
mod operands;
mod parts;
mod places;
mod reading;
mod scripts;
mod statements;
mod step_files;
mod words;

pub use faults::{BatchEnd, Detail, FaultKind, ReadError, ScriptError, ScriptFault, Span};
pub use fields::{ItemKind, Key};
pub use reading::read_text;
pub use scripts::{ClientBatch, Script, ScriptLines, parse_script, read_script};
pub use step_files::{Act, StepFile, parse_steps, read_steps};
