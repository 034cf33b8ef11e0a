//! What the ledger actor replies to each client, from one order of all clients' batches.

ghost use Rattle.cdc_ledger_actors.specs.Orders.{OrdersAreFixed, RepliesAreSent, RepliesHaveTheirBatches, RepliesMayFollow};

/// Does nothing: its postconditions hold for every order in which batches of clients may come to a ledger. A client
/// gets the answers to its own batches, in its own order. The next batch adds one reply to its client's replies, and
/// nothing to those of others; and that reply may be sent. The clients of all batches, in an order, and each client's
/// own batches fix that order.
pub fn order_laws()
    ensures batches { RepliesHaveTheirBatches }
    ensures dispatched { RepliesAreSent }
    ensures follows { RepliesMayFollow }
    ensures fixed { OrdersAreFixed }
{}
