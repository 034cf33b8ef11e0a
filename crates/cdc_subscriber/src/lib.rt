//! A subscriber applies each event at most once, if it is later than all events applied before, and its book has the
//! balances that those events show.
#![tactic(auto)]

pub mod book;
pub mod errors;
mod printing;
pub mod subscriber;

pub use book::{Book, BookEntry};
pub use errors::TakeError;
pub use subscriber::{Subscriber, Taking};
