//! Executing the text of a follower's saves gives the tables of the follower's book. Saves of any followers of a queue,
//! in any order and also after some that failed, keep the tables of a prefix. The crate has the text of each save, and
//! what executing it does to the tables.
#![tactic(auto)]

pub mod laws;
mod names;
mod pieces;
mod places;
mod plain;
mod positions;
mod rows;
mod schema;
mod statements;
mod transactions;

pub use names::SchemaName;
pub use places::Place;
pub use plain::is_plain;
pub use rows::{AccountRow, Recent};
pub use schema::{preamble_text, schema_text};
pub use transactions::transaction_text;
