//! Two bindings that mean the same take the same messages. The crate compares them so, such as that of a saved book
//! with that of the command line.
#![tactic(auto)]

mod bindings;
mod laws;

pub use bindings::is_of;
pub use laws::same_bindings_take_same;
