//! A follower of a chained stream has seen a chain, whatever lines came. If each line is one of the queue, what it
//! applied is a prefix of the queue's events, each once. It reads lines, and keeps a book.
#![tactic(auto)]

pub mod counts;
pub mod entries;
pub mod errors;
pub mod follower;
pub mod laws;
pub mod lines;
pub mod saved;
pub mod streams;

pub use counts::Counts;
pub use entries::{Content, Entry, read_entry};
pub use errors::LineError;
pub use follower::{Follower, Following, TakesEntries};
pub use lines::{ReadError, read_line};
pub use saved::{BOOK_MARK, SavedBook, read_account, read_book, write_book};
pub use streams::{FollowError, Rules, Stop, Taken, Turn, follow, follow_line};
