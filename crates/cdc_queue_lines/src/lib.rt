//! Each line of a queue names the timestamp of the message before it in that queue, so that a consumer can see by
//! itself that nothing is missing.
#![tactic(auto)]

mod laws;
mod lines;
mod messages;
pub mod predecessors;

pub use laws::line_laws;
pub use lines::{push_headers, queue_lines};
pub use messages::message_lines;
pub use predecessors::{Predecessor, Predecessors};
