//! Laws of a broker's queues, for any requests.

ghost use Rattle.cdc_broker.specs.Requests.{NothingAcknowledgedIsRedelivered};

/// Does nothing: the postcondition holds for every binding and all requests. What a queue has had acknowledged is never
/// delivered again, so the broker can let go of it.
pub fn acknowledgement_laws()
    ensures { NothingAcknowledgedIsRedelivered }
{}
