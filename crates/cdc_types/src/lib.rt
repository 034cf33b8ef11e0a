//! A request's first check answers the first line of its table that applies, and each result has the number and the
//! name that the table gives it. The crate has the data of the ledger, of its events and of the batches that make them.
#![tactic(auto)]

pub mod accounts;
pub mod batches;
pub mod bounds;
pub mod events;
pub mod results;
pub mod steps;
pub mod times;
pub mod transfers;

pub use accounts::{Account, AccountFlags, Balances, NewAccount};
pub use batches::{Batch, BatchResults, Items};
pub use bounds::Limits;
pub use events::{Entry, Event, EventAccount, EventKind, EventTransfer, Headers, Properties};
pub use results::{AccountResult, TransferResult};
pub use steps::Step;
pub use times::EventTimestamp;
pub use transfers::{NewTransfer, Transfer, TransferFlags};
