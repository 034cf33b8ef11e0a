//! How a script is run on threads.

use crate::faults::Faults;
use cdc_types::EventTimestamp;

/// How a script is run on threads.
#[derive(Drop)]
pub struct RunPlan {
    /// For how many events the connector's session waits at a time: 1 to 64.
    pub window: usize,
    /// How many deliveries of a queue may be without an acknowledgement: 1 to 64.
    pub prefetch: u64,
    /// The planned faults.
    pub faults: Faults,
    /// The timestamp, in nanoseconds, that the connector's first session is to start after. With None it starts after
    /// what the store holds, or with the first event.
    pub start: Option<EventTimestamp>,
}
