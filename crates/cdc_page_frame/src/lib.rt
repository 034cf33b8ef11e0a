//! The text of HTML around the data of a page, and the style of a drawing.
#![tactic(auto)]

mod frame;

pub use frame::{AFTER, BEFORE, STYLE};
