//! One step of a world: an action of one actor.

use crate::batches::Batch;
use crate::times::EventTimestamp;

/// One action of one actor. Packets, confirms, subscribers and acknowledgements are numbered from 1, in the order of
/// their creation.
#[derive(Drop)]
pub enum Step {
    /// The ledger receives a batch.
    Submit(Batch),
    /// The ledger closes: it refuses every later batch.
    CloseLedger,
    /// The connector starts a session after the timestamp of its progress record, or after 0 if there is no record.
    Start,
    /// The connector starts a session after this timestamp. The step is refused if a progress record exists.
    StartAt(EventTimestamp),
    /// The connector crashes and loses its session.
    Crash,
    /// The session polls the ledger's log for events.
    Poll,
    /// The session sends its next packet to the broker.
    Publish,
    /// The broker receives this packet, which may have arrived before.
    Arrive(u64),
    /// The session receives this confirm.
    Answer(u64),
    /// The session saves its progress record.
    Save,
    /// The broker delivers the next entry of this subscriber's queue.
    Send(u64),
    /// The broker rewinds a queue to its first unacknowledged entry.
    Rewind(u64),
    /// The connection to a subscriber breaks: deliveries on their way are lost, and the broker rewinds the queue.
    Break(u64),
    /// A subscriber takes the first delivery that is on its way to it.
    Take(u64),
    /// The broker receives an acknowledgement: the subscriber's number, then the number of the acknowledgement.
    Ack(u64, u64),
    /// A subscriber closes: it applies no more events.
    Close(u64),
}
