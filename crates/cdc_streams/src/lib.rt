//! What a command over a stream prints of a save was held by its store before. The crate has what all these commands
//! share: how lines are read, what takes them, when and where that is saved, and how the command ends.
#![tactic(auto)]

mod commands;
mod consumers;
mod endings;
mod forms;
mod log_files;
mod logs;
mod quiet;
mod readers;
mod savers;
mod stores;
mod writing;

pub use commands::{fail, stream_command, take_stream};
pub use consumers::Consumer;
pub use endings::{StreamEnding, failure_status, fault_of};
pub use forms::{StreamForm, push_bad_line, push_bad_line_json};
pub use log_files::LogFile;
pub use logs::Log;
pub use quiet::Quiet;
pub use readers::LineReader;
pub use savers::Saver;
pub use stores::{Keeps, LogStore, Saved};
pub use writing::write_part;
