//! Laws of the queues of bindings, for any input.

ghost use Rattle.cdc_match.specs.Laws.{QueuesReplay, QueuesHoldFeeds};

/// Does nothing: each postcondition holds for every list of items and every binding. If a broker's input is a replay
/// of what the ledger publishes, what it puts into a queue is a replay of what the ledger publishes for that queue.
pub fn queue_laws()
    ensures replays { QueuesReplay }
    ensures feeds { QueuesHoldFeeds }
{}
