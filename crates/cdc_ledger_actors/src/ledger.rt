//! The ledger actor's work: it answers requests and polls, and closes the ledger once all clients are done.

ghost use Rattle.cdc_ledger_actors.specs.Ledger.{ClientsReceiveReplies, FinishedLedgersAreClosed};

mod cores;
mod reception;

pub use cores::{LedgerCore, LedgerParts};

/// Does nothing: its postconditions hold for whatever the ledger actor keeps. Once it is finished, each client and
/// the connector are done, and the ledger is closed and is what all batches received have made of it. Over the link
/// at each place, its client was sent exactly its replies for these batches in their order.
pub fn ledger_actor_laws()
    ensures finished { FinishedLedgersAreClosed }
    ensures emitted { ClientsReceiveReplies }
{}
