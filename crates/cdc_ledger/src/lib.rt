//! Each batch is answered exactly as the definitions say, or memory ran out and nothing changed; balances are the sums
//! of the history's entries. The crate is the ledger: accounts, transfers and the events that they make (TigerBeetle,
//! Account, Transfer, Change Data Capture).
#![tactic(auto)]

mod accounts;
mod batches;
mod chains;
mod emitted;
mod endings;
pub mod errors;
mod id_places;
pub mod ledger;
mod movements;
mod plain_refusals;
mod pulses;
mod recording;
mod requests;
mod settling_refusals;
mod tables;
mod transfers;
mod validation;

pub use errors::BatchError;
pub use ledger::Ledger;
