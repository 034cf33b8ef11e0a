//! Each client's replies are the answers to its batches in one order of all of them. The crate has the ledger actor and
//! the client actors of a run: what each does over its links, without its faults.
#![tactic(auto)]

mod client;
mod ledger;
mod orders;

pub use client::{ClientCore, ClientParts};
pub use ledger::{LedgerCore, LedgerParts, ledger_actor_laws};
pub use orders::order_laws;
