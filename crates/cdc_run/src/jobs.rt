//! The work of a run, each piece on a thread of its own.

ghost use Rattle.std.specs.Prelude.{◌≡◌, ◌≤◌, IfErr, IfOk, [], vec_capacity, vec_len};
ghost use Rattle.std.specs.List.{AllZip};
ghost use Rattle.cdc_run.specs.Jobs.{ComesTo};

use crate::gates::Gate;
use cdc_actors::Stop;
use std::alloc::Global;
use std::snapshot::Snapshot;
use std::sync::Wait;
use std::sync::atomic::{AtomicUsize, Ordering};
use std::thread::{Promise, PromisedHandle, Scope, Threads};

/// The work of one thread.
pub(crate) trait Job: Send + Drop {
    ghost use Rattle.std.specs.Prelude.{IfErr, IfOk};
    ghost use Rattle.cdc_actors.specs.Stops.{StopState};

    /// What is left once it has finished.
    type End: Send + Drop;

    /// What is known of it then.
    ghost ends_as: { Self → Self.End → Type 0 };

    /// What is known of a stop before that.
    ghost stops_as: { Self → StopState → Type 0 };

    /// Works until it has finished, and calls the gate before each turn.
    fn work<R: Wait, G: Gate>(self, rt: &R, alloc: Global, gate: &G) -> Result<Self::End, Stop>
        ensures ends { IfOk result (ends_as self) }
        ensures stops { IfErr result (stops_as self) };

    /// Drops it before it has worked, and aborts the links to all that wait for it.
    fn abort<R: Wait>(self, rt: &R) -> Stop
        ensures { stops_as self result };
}

/// What the thread of a job promises: the job's end, or why it stopped before.
#[derive(Drop)]
pub(crate) struct Ended<J>(Snapshot<J>);

impl<J: Job> Promise<Result<J::End, Stop>> for Ended<J> {
    ghost use Rattle.cdc_run.specs.Jobs.{ComesTo};

    ghost kept_by = { λ p r. ComesTo J.ends_as J.stops_as p.0.value r };
}

// Starts a job on a thread of its own. If that can't be started, the job is dropped at once, which is its outcome:
// `refused` is set to its place, and what was to be the thread's work sees it.
fn start<'s, E, J: Job + 's, R: Threads + Wait + Sync, G: Gate + Sync>(
    scope: &'s Scope<'s, E>,
    rt: &'s R,
    alloc: Global,
    gate: &'s G,
    refused: &'s AtomicUsize,
    place: usize,
    job: J,
) -> Result<PromisedHandle<Result<J::End, Stop>, Ended<J>>, Result<J::End, Stop>>
    ensures started { IfOk result (λ thread. thread.promise.0.value ≡ job) }
    ensures refused { IfErr result (ComesTo J.ends_as J.stops_as job) }
{
    let started = scope.spawn_with(
        Ended(Snapshot::of(&job)),
        move || -> Result<J::End, Stop>
            ensures { ComesTo J.ends_as J.stops_as job result }
        {
            if refused.load(Ordering::SeqCst) == place {
                return Err(job.abort(rt));
            }
            job.work(rt, alloc, gate)
        },
    );
    match started {
        Ok(thread) => Ok(thread),
        Err(error) => {
            refused.store(place, Ordering::SeqCst);
            Err((error.value)())
        }
    }
}

/// Works all jobs until they have finished, each on a thread of its own, all at the same time, and returns the
/// outcome of each, in their order. `outcomes` is an empty list with room for them. A job whose thread can't be
/// started is dropped before any other is waited for, since the others may wait for it. `refused` is the place of the
/// last such job, from 1, or 0.
pub(crate) fn work_all<'s, E, J: Job + 's, R: Threads + Wait + Sync, G: Gate + Sync>(
    scope: &'s Scope<'s, E>,
    rt: &'s R,
    alloc: Global,
    gate: &'s G,
    refused: &'s AtomicUsize,
    mut jobs: Vec<J>,
    outcomes: Vec<Result<J::End, Stop>>,
) -> Vec<Result<J::End, Stop>>
    requires none { outcomes.items ≡ [] }
    requires room { vec_len jobs ≤ vec_capacity outcomes }
    ensures outcomes { AllZip (ComesTo J.ends_as J.stops_as) jobs.items result.items }
    ensures capacity { vec_capacity result ≡ vec_capacity outcomes }
    ensures as_many { vec_len result ≡ vec_len jobs }
{
    let place = jobs.len();
    let Some(job) = jobs.pop() else {
        return outcomes;
    };
    let started = start(scope, rt, alloc, gate, refused, place, job);
    let mut all = work_all(scope, rt, alloc, gate, refused, jobs, outcomes);
    let outcome = match started {
        Ok(thread) => thread.join(rt),
        Err(outcome) => outcome,
    };
    all.push_reserved(outcome);
    all
}
