//! What several actors came to: which stop counts, or all of them if none does.

ghost use Rattle.std.specs.Prelude.{◌≡◌, IfOk};
ghost use Rattle.cdc_run.specs.Outcomes.{finished_in, first_of, first_stop, is_gone, stop_in};

use cdc_actors::{Met, Place, RunFault, Stop};
use std::alloc::{AllocError, Global};

// Whether an actor stopped only because a peer was gone, which happens if the peer met a fault of its own.
fn follows(met: Met) -> bool
    ensures { result ≡ is_gone met }
{
    match met {
        Met::Fault(RunFault::PeerGone) => true,
        Met::Fault(RunFault::OutOfMemory) => false,
        Met::Fault(RunFault::Store(_)) => false,
        Met::Fault(RunFault::SessionsExhausted) => false,
        Met::Fault(RunFault::NotOneSystem) => false,
        Met::Fault(RunFault::StartNotAllowed) => false,
        Met::Unstarted => false,
    }
}

// None if the actor has finished.
fn stop_of<T>(outcome: &Result<T, Stop>) -> Option<(Place, Met)>
    ensures { result ≡ stop_in outcome.now }
{
    match outcome {
        Ok(_) => None,
        Err(stop) => Some((stop.place(), stop.met())),
    }
}

// The stop that counts of one place and of those after it. It is the first, but that a peer is gone counts only if
// there is no other reason.
fn earlier(one: Option<(Place, Met)>, later: Option<(Place, Met)>) -> Option<(Place, Met)>
    ensures { result ≡ first_of one later }
{
    let Some((place, met)) = one else {
        return later;
    };
    if !follows(met) {
        return Some((place, met));
    }
    match later {
        None => Some((place, met)),
        Some((other, why)) => {
            if follows(why) {
                Some((place, met))
            } else {
                Some((other, why))
            }
        }
    }
}

/// The stop that counts among outcomes, which are in the order of their places. None if all have finished.
pub(crate) fn earliest<T>(outcomes: &[Result<T, Stop>]) -> Option<(Place, Met)>
    ensures { result ≡ first_stop outcomes.now }
{
    match outcomes.split_first() {
        None => None,
        Some((outcome, others)) => earlier(stop_of(outcome), earliest(others)),
    }
}

/// The actors among outcomes that have finished.
pub(crate) fn finished<T: Drop>(
    alloc: Global,
    outcomes: Vec<Result<T, Stop>>,
) -> Result<Vec<T>, AllocError>
    ensures { IfOk result (λ actors. actors.items ≡ finished_in outcomes.items) }
{
    let mut actors = Vec::with_capacity(alloc, outcomes.len())?;
    for outcome in outcomes {
        if let Ok(actor) = outcome {
            actors.push(actor)?;
        }
    }
    Ok(actors)
}
