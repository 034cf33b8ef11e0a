//! A client's script: its batches, one after another, and then the report that it is done.

ghost use Rattle.std.specs.Prelude.{◌≡◌, IfErr, IfOk, false};
ghost use Rattle.cdc_actor_work.specs.Faults.{IsTurnFault};
ghost use Rattle.cdc_ledger_actors.specs.Seats.{client_seat};
ghost use Rattle.cdc_run.specs.Tasks.{ClientLeaves, HasStopped, client_place};

use crate::gates::Gate;
use cdc_actors::{ClientEnd, Stop};
use cdc_types::Batch;
use std::alloc::Global;
use std::sync::Wait;

/// Submits the batches of a script in their order, and then reports that the client is done. The gate is called
/// before each batch, counted from 1.
pub(crate) fn run_script<R: Wait, G: Gate>(
    mut end: ClientEnd,
    script: Vec<Batch>,
    rt: &R,
    alloc: Global,
    gate: &G,
) -> Result<ClientEnd, Stop>
    requires { end.work.finished ≡ false }
    ensures left { IfOk result (ClientLeaves (record { end = end; script = script.items })) }
    ensures stopped { IfErr result (HasStopped client_seat client_place (λ _. IsTurnFault) end) }
{
    let place = end.place();
    let mut turn: u64 = 0;
    for batch in script {
        turn = turn.saturating_add(1);
        gate.pass(place, turn);
        match end.submit(rt, alloc, batch) {
            Ok(_reply) => {}
            Err(_) => return Err(end.stop()),
        }
    }
    match end.finish(rt) {
        Ok(()) => Ok(end),
        Err(_) => Err(end.stop()),
    }
}
