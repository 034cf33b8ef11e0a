//! Actors that work turn by turn, each until it has finished.

ghost use Rattle.std.specs.Prelude.{◌≡◌, IfErr, IfOk, cond};
ghost use Rattle.cdc_run.specs.Tasks.{HasLeft, HasStopped};
ghost use Rattle.cdc_types.specs.declared.bounds.TheConstants.Limits.{READY_MESSAGES};

use crate::gates::Gate;
use cdc_actors::{End, Stop, Turn, Turns};
use cdc_types::Limits;
use std::alloc::Global;
use std::sync::Wait;

// How many it may receive in a turn, besides the one that it waits for.
fn most_further(is_open: bool) -> usize
    ensures { result ≡ cond is_open READY_MESSAGES 0 }
{
    if is_open { Limits::READY_MESSAGES } else { 0 }
}

/// Takes turns until the actor has finished or has met a fault. The gate is called before each turn, counted from 1.
pub(crate) fn run_to_end<W: Turns + Drop, R: Wait, G: Gate>(
    mut end: End<W>,
    rt: &R,
    alloc: Global,
    gate: &G,
) -> Result<End<W>, Stop>
    ensures left { IfOk result (HasLeft W.seat W.keeps W.is_over end) }
    ensures stopped { IfErr result (HasStopped W.seat W.place W.fails_as end) }
{
    let place = end.place();
    let more = most_further(gate.is_open());
    let mut turn: u64 = 0;
    for _ in rt.forever() {
        turn = turn.saturating_add(1);
        gate.pass(place, turn);
        match end.turn_with(rt, alloc, more) {
            Ok(Turn::More) => {}
            Ok(Turn::Finished) => return Ok(end),
            Err(_) => return Err(end.stop()),
        }
    }
    unreachable!()
}
