//! What a subscriber of a run was delivered, as `simulate --deliveries` has it.

ghost use Rattle.std.specs.Prelude.{◌≡◌, IfOk};
ghost use Rattle.cdc_run_command.specs.Arrived.{arrived as arrived_by, item_named};

use cdc_deliveries::Arrival;
use cdc_run::Arrival as Received;
use cdc_world::ItemName;
use std::alloc::{AllocError, Global};

/// The deliveries that a subscriber of a run took before its close, which is the end of `received`. One is redelivered
/// if its position isn't beyond all before it: a run loses none on the way, so each that was sent before has come. An
/// error means out of memory.
pub fn arrivals_of_run(alloc: Global, received: &[Received]) -> Result<Vec<Arrival>, AllocError>
    ensures { IfOk result (λ arrived. arrived.items ≡ arrived_by received.now) }
{
    let mut arrived = Vec::with_capacity(alloc, received.len())?;
    let mut furthest = 0;
    for delivery in received {
        let position = delivery.position;
        arrived.push(Arrival {
            position,
            redelivered: position <= furthest,
            item: name_of(delivery.event),
        })?;
        furthest = furthest.max(position);
    }
    Ok(arrived)
}

fn name_of(event: Option<u64>) -> ItemName
    ensures { result ≡ item_named event }
{
    match event {
        Some(timestamp) => ItemName::Event(timestamp),
        None => ItemName::EndMark,
    }
}
