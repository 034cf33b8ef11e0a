//! What a command prints is determined by the bytes that it reads, and is the text of its definition, or a fault alone.
//! The crate has the commands over a script that need no thread, each in a file of its own, which first reads and then
//! prints, in a form of its caller's choice. Also what `run` shares with them.
#![tactic(auto)]

mod batches;
mod book_reports;
pub mod books;
pub mod check;
pub mod contents;
pub mod endings;
mod event_lines;
mod feeding;
pub mod forms;
pub mod json_form;
pub mod messages;
mod notes;
pub mod observers;
pub mod output;
pub mod queues;
mod reading;
mod report;
pub mod simulate;
mod simulation_report;
mod simulations;
pub mod tally;
mod text;
mod words;

pub use batches::{Answered, TakenBatches, take_batches};
pub use book_reports::{BooksReport, ParsedBatches, books_report};
pub use contents::{Content, Report, SimulationContent};
pub use endings::Ending;
pub use forms::Form;
pub use notes::{Count, Notes, PastBatches};
pub use observers::Observer;
pub use output::{Ended, Output, print_fault, print_output, print_text};
pub use reading::read_file;
pub use report::{print_subscriber, push_batch};
pub use simulations::{Simulated, play_script};
pub use tally::Tally;
pub use words::{bytes_at, fault_word, shown_word};
