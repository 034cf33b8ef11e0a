//! Nothing is acknowledged before the store was given a book that has it. The command `consume` consumes a queue over
//! AMQP 0-9-1.
#![tactic(auto)]

mod commands;
mod endings;
mod forms;
mod keepers;

pub use commands::consume_command;
pub use endings::{ConsumeEnding, Outcome};
pub use forms::ConsumeForm;
pub use keepers::KeptFollower;
