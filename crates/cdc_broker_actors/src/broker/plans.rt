//! The planned faults of a broker.

ghost use Rattle.std.specs.Prelude.{◌≡◌, ◌==◌, ◌&&◌};
ghost use Rattle.std.specs.List.{list_any};
ghost use Rattle.cdc_broker_actors.specs.Broker.{is_listed};

/// The planned faults of the broker of a run. Counts begin at 1 and go on through all sessions. A number that is
/// listed twice counts once, and one that names nothing has no effect.
#[derive(Drop)]
pub struct BrokerPlan {
    /// The publishes whose confirms are lost, by their place among those that the broker accepts.
    pub lose_confirm: Vec<u64>,
    /// The publishes that are lost, by their place among those that reach the broker.
    pub lose_publish: Vec<u64>,
    /// The deliveries after which a queue rewinds to its first position without an acknowledgement: the queue's
    /// number and the position, both from 1. The queue rewinds once, after the first delivery of the position.
    pub repeat: Vec<(u64, u64)>,
}

impl BrokerPlan {
    /// Whether the publish that reaches the broker at this place, from 1, is lost.
    pub(crate) fn loses_publish(&self, place: u64) -> bool
        ensures { result ≡ is_listed self.now.lose_publish.items place }
    {
        self.lose_publish.as_slice().contains(&place)
    }

    /// Whether the confirm of the publish that is accepted at this place, from 1, is lost.
    pub(crate) fn loses_confirm(&self, place: u64) -> bool
        ensures { result ≡ is_listed self.now.lose_confirm.items place }
    {
        self.lose_confirm.as_slice().contains(&place)
    }
}

/// Whether the queue of this number rewinds after the first delivery of this position. Both count from 1.
pub(crate) fn is_repeated(repeat: &[(u64, u64)], number: u64, position: u64) -> bool
    ensures { result
        ≡ list_any (λ r. (r.0 == number) && (r.1 == position)) repeat.now }
{
    repeat.contains(&(number, position))
}
