//! What the program's commands read, and what standard error reports of each of them. Its functions have few contracts:
//! tests of the program cover them.
#![tactic(auto)]

mod advice;
mod descriptors;
mod kept;
mod names;
mod notes;
mod sources;

pub use advice::{
    abort, advise, advise_on_failure, advise_on_script, advise_on_steps, is_reader_gone, shown_name,
};
pub use descriptors::open_standard;
pub use kept::{Kept, Seen};
pub use names::{Escaped, escaped_text};
pub use notes::{EXPLAIN, hint, note, report_count, report_no_subscriber};
pub use sources::{Source, Stream};
