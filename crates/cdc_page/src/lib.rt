//! The data of a page that draws a simulation: each step with its answer, what it moved, and the events that the ledger
//! logged in it; then the page itself, which is that data inside a text of HTML.
#![tactic(auto)]

mod bindings;
mod events;
mod moves;
mod page;
mod pieces;
mod recorder;
mod recording;
mod steps;

pub use page::{Frame, Labels, simulation_page};
pub use pieces::push_sentence;
pub use recorder::PageRecorder;
