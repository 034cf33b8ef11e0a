//! All jobs of a run at the same time, until the last has finished.

ghost use Rattle.std.specs.Prelude.{IfOk};
ghost use Rattle.std.specs.List.{AllZip};
ghost use Rattle.cdc_run.specs.Jobs.{ComesTo};

use crate::gates::Gate;
use crate::jobs::{Job, work_all};
use cdc_actors::Stop;
use std::alloc::{AllocError, Global};
use std::sync::Wait;
use std::sync::atomic::AtomicUsize;
use std::thread;
use std::thread::{Scope, Threads};

// Works all jobs in a scope until they have finished.
fn work_in<'s, E, J: Job + 's, R: Threads + Wait + Sync, G: Gate + Sync>(
    scope: &'s Scope<'s, E>,
    rt: &'s R,
    alloc: Global,
    gate: &'s G,
    refused: &'s AtomicUsize,
    jobs: Vec<J>,
) -> Result<Vec<Result<J::End, Stop>>, AllocError>
    ensures { IfOk result (λ outcomes.
        AllZip (ComesTo J.ends_as J.stops_as) jobs.items outcomes.items) }
{
    let room = Vec::with_capacity(alloc, jobs.len())?;
    Ok(work_all(scope, rt, alloc, gate, refused, jobs, room))
}

/// Works all jobs, each on a thread of its own, all at the same time. Returns once the last has finished, with the
/// outcome of each, in their order. Fails only if it is out of memory before any has begun.
pub(crate) fn run_jobs<J: Job, R: Threads + Wait + Sync, G: Gate + Sync>(
    rt: &R,
    alloc: Global,
    gate: &G,
    jobs: Vec<J>,
) -> Result<Vec<Result<J::End, Stop>>, AllocError>
    ensures { IfOk result (λ outcomes.
        AllZip (ComesTo J.ends_as J.stops_as) jobs.items outcomes.items) }
{
    let no_place = AtomicUsize::new(0);
    let refused = &no_place;
    thread::scope(
        thread::scope_env(),
        rt,
        move |scope| -> Result<Vec<Result<J::End, Stop>>, AllocError>
            ensures { IfOk result (λ outcomes.
                AllZip (ComesTo J.ends_as J.stops_as) jobs.items outcomes.items) }
        { work_in(scope, rt, alloc, gate, refused, jobs) },
    )
}
