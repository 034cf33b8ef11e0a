//! The history of a ledger that a message names.

use cdc_types::Batch;
use std::collections::LinkedList;

/// The history that a message was made on, given by what made it. It occurs in contracts only: no value of it is ever
/// made.
pub struct Past {
    /// The batches that were submitted, in order, including refused ones.
    pub batches: LinkedList<Batch>,
    /// Whether the ledger was closed after them.
    pub closed: bool,
}
