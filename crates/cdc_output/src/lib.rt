//! A command's lines, of text and of JSON, and the fault that it failed with are written whole, or a write failed. The
//! crate has what every command prints in the same way.
#![tactic(auto)]

mod faults;
mod forms;
mod lines;
mod subscribers;
mod text;

pub use faults::ProgramFault;
pub use forms::{FaultForm, Json, Text};
pub use lines::{Field, Lines, Member, Named};
pub use subscribers::{push_subscriber, push_subscribers};
pub use text::{push, push_named, write_text};
