//! What the index stores for a pending transfer.

/// When a pending transfer expires, when it was created, and where its owner stores it. Triples are ordered by these
/// fields, in this order.
#[derive(Clone, Copy, Debug, PartialEq, Eq, PartialOrd, Ord)]
pub struct Triple {
    /// When the transfer expires, in nanoseconds.
    pub expires_at: u64,
    /// When the transfer was created, in nanoseconds. No two triples of an index have the same timestamp.
    pub timestamp: u64,
    /// The owner's position for the transfer. The index stores it and doesn't interpret it.
    pub slot: usize,
}
