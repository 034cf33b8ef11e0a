//! A save makes the rows those of the book, and a crash leaves the old or the new ones. The crate keeps a book in
//! SQLite, which others may query while it is kept.
#![tactic(auto)]

pub mod accounts;
pub mod books;
pub mod details;
pub mod files;
pub mod loading;
pub mod new_file;
pub mod tables;

pub use files::{SqliteBook, Waiting};
pub use loading::begin_text;
