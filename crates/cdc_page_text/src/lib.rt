//! Texts of a page: strings of JSON that neither JSON nor HTML can misread, whatever their bytes are.
#![tactic(auto)]

mod strings;

pub use strings::{push, push_escaped, push_number};
