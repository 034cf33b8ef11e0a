//! How far a run came in what its plan of faults counts.

ghost use Rattle.std.specs.Prelude.{◌≡◌, IfOk};
ghost use Rattle.cdc_run.specs.Counts.{HasCounted};

use cdc_actors::{BrokerEnd, ConnectorEnd};
use cdc_progress::ProgressStore;
use std::alloc::{AllocError, Global};

/// How far a run came in what its plan of faults counts, over the whole run. A planned fault with a greater number
/// never came.
#[derive(Drop)]
pub struct Counts {
    /// How many publishes the connector sent.
    pub sent: u64,
    /// How many publishes reached the broker, including those that it lost by plan.
    pub reached: u64,
    /// How many publishes the broker accepted.
    pub accepted: u64,
    /// How many positions of each queue were delivered, by place.
    pub delivered: Vec<u64>,
}

impl Counts {
    /// The counts of these two actors. Fails if it is out of memory.
    pub(crate) fn of<S: ProgressStore>(
        alloc: Global,
        connector: &ConnectorEnd<S>,
        broker: &BrokerEnd,
    ) -> Result<Counts, AllocError>
        ensures { IfOk result (HasCounted connector.now broker.now) }
    {
        Ok(Counts {
            sent: connector.published(),
            reached: broker.publishes(),
            accepted: broker.accepted(),
            delivered: broker.delivered(alloc)?,
        })
    }
}
