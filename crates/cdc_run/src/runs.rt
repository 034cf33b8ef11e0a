//! A run: every actor on a thread of its own.

ghost use Rattle.std.specs.Prelude.{◌≡◌, All, Option, IfErr, IfOk, List, ℕ, false, length, map, true, vec_len};
ghost use Rattle.std.specs.List.{AllZip};
ghost use Rattle.cdc_connector_actor.specs.Connector.{first_origin};
ghost use Rattle.cdc_laws.specs.Connectors.{held_start, held_timestamp};
ghost use Rattle.cdc_run.specs.Configs.{Fits};
ghost use Rattle.cdc_run.specs.Counts.{MayCount};
ghost use Rattle.cdc_run.specs.Failures.{fault_answered, unexplained};
ghost use Rattle.cdc_run.specs.Made.{AreCloses, plan_of};
ghost use Rattle.cdc_run.specs.Meeting.{IsRunFailure};
ghost use Rattle.cdc_run.specs.Ran.{RanFrom};
ghost use Rattle.cdc_run.specs.Reports.{AreSubscribed, HasRun};
ghost use Rattle.cdc_run.specs.Tasks.{Leaves, Placed, left_at, places_of, tasks_at};
ghost use Rattle.cdc_run.specs.Worked.{HaveStopped};

use crate::actors::Actor;
use crate::configs::Config;
use crate::ends::Ends;
use crate::failures::Failure;
use crate::gates::Gate;
use crate::outcomes::{earliest, finished};
use crate::reports::{Report, settle};
use crate::scopes::run_jobs;
use crate::scripted::Scripted;
use crate::tasks::Task;
use crate::wiring::wire_up;
use cdc_actors::{RunFault, connector_actor_laws};
use cdc_plans::Faults;
use cdc_progress::ProgressStore;
use cdc_types::Batch;
use std::alloc::{AllocError, Global};
use std::sync::Wait;
use std::thread::Threads;

// The actors as one list in the order of their places, each client with its script.
fn tasks_of<S: ProgressStore + Drop>(
    alloc: Global,
    ends: Ends<S>,
    scripts: Vec<Vec<Batch>>,
) -> Result<Vec<Task<S>>, AllocError>
    requires { All (λ c. c.work.finished ≡ false) ends.clients.items }
    ensures { IfOk result (λ tasks. tasks.items
        ≡ tasks_at (places_of ends) (map (λ s. s.items) scripts.items)) }
{
    let Ends {
        ledger,
        clients,
        connector,
        broker,
        subscribers,
    } = ends;
    let mut tasks = Vec::new(alloc);
    tasks.push(Task::Ledger(ledger))?;
    for (client, script) in clients.into_iter().zip(scripts) {
        tasks.push(Task::Client(Scripted::new(client, script)))?;
    }
    tasks.push(Task::Connector(connector))?;
    tasks.push(Task::Broker(broker))?;
    for subscriber in subscribers {
        tasks.push(Task::Subscriber(subscriber))?;
    }
    Ok(tasks)
}

// The actors of a list in the order of their places.
fn actors_of<S: ProgressStore + Drop>(
    alloc: Global,
    left: Vec<Actor<S>>,
) -> Result<Ends<S>, AllocError>
    requires { (p : Placed) × (left.items ≡ left_at p) }
    ensures { IfOk result (λ ends. (p : Placed) → left.items ≡ left_at p → places_of ends ≡ p) }
{
    let mut ledger = None;
    let mut clients = Vec::new(alloc);
    let mut connector = None;
    let mut broker = None;
    let mut subscribers = Vec::new(alloc);
    for end in left {
        match end {
            Actor::Ledger(end) => ledger = Some(end),
            Actor::Client(end) => {
                clients.push(end)?;
            }
            Actor::Connector(end) => connector = Some(end),
            Actor::Broker(end) => broker = Some(end),
            Actor::Subscriber(end) => {
                subscribers.push(end)?;
            }
        }
    }
    Ok(Ends {
        ledger: ledger.unwrap(),
        clients,
        connector: connector.unwrap(),
        broker: broker.unwrap(),
        subscribers,
    })
}

// Works all actors of a run, which are in the order of their places, each on a thread of its own: with each of them
// where it stood and finished, in the same order, or with the stop that counts.
fn run_actors<S: ProgressStore + Send + Drop, R: Threads + Wait + Sync, G: Gate + Sync>(
    rt: &R,
    alloc: Global,
    gate: &G,
    ends: Vec<Task<S>>,
) -> Result<Vec<Actor<S>>, Failure<S>>
    ensures left { IfOk result (λ left. AllZip Leaves ends.items left.items) }
    ensures stopped { IfErr result (HaveStopped ends.items) }
{
    let outcomes = run_jobs(rt, alloc, gate, ends)?;
    match earliest(outcomes.as_slice()) {
        None => Ok(finished(alloc, outcomes)?),
        Some((place, met)) => Err(Failure::Stopped {
            place,
            met,
            outcomes,
        }),
    }
}

// Before the actors of a run work, and after all have finished, no other fault is met.
fn out_of_memory<S: ProgressStore>(fault: RunFault) -> Failure<S>
    requires { fault ≡ RunFault.OutOfMemory }
    ensures { result ≡ Failure.OutOfMemory }
{
    let _ = fault;
    Failure::OutOfMemory
}

/// As `run`, but a run that fails also returns which actor stopped, why, and the outcome of each actor. If several
/// stopped, it is the first of them in the order of the places that met another fault than `PeerGone`, or the first of
/// all if none did. A thread that can't be started is `OutOfMemory` at its actor's place.
pub fn run_explained<S: ProgressStore + Send + Drop, R: Threads + Wait + Sync, G: Gate + Sync>(
    rt: &R,
    alloc: Global,
    config: Config,
    scripts: Vec<Vec<Batch>>,
    faults: Faults,
    store: S,
    gate: &G,
) -> Result<Report, Failure<S>>
    requires fits { Fits config }
    requires scripts { vec_len scripts ≡ config.clients }
    ensures report { IfOk result (HasRun (map (λ s. s.items) scripts.items)) }
    ensures ran { IfOk result (RanFrom config faults (S.held store) (S.is_honest store) (S.risks store)
        (map (λ s. s.items) scripts.items)) }
    ensures counts { IfOk result (λ report. MayCount (plan_of faults) config.bindings.items report.counts) }
    ensures failure { IfErr result (IsRunFailure config.system (S.is_honest store) (S.risks store)
        config.clients (length config.bindings.items)) }
    ensures subscribers { IfOk result (λ report. held_timestamp (S.held store) ≡ held_start (S.held store)
        → (closes : List (Option ℕ)) × AreCloses 1 faults.close.items closes
        × AreSubscribed report.ledger (first_origin config.start (S.held store)).start config.bindings.items closes
        report.subscribers.items) }
{
    let ends = match wire_up(alloc, config, faults, store) {
        Ok(ends) => ends,
        Err(fault) => return Err(out_of_memory(fault)),
    };
    let tasks = tasks_of(alloc, ends, scripts)?;
    let left = run_actors(rt, alloc, gate, tasks)?;
    let finished = actors_of(alloc, left)?;
    connector_actor_laws();
    match settle(alloc, finished) {
        Ok(report) => Ok(report),
        Err(fault) => Err(out_of_memory(fault)),
    }
}

// The result of a run, of whose failure only the fault is kept.
fn without_explanation<S: ProgressStore + Drop>(
    explained: Result<Report, Failure<S>>,
) -> Result<Report, RunFault>
    ensures { result ≡ unexplained explained }
{
    match explained {
        Ok(report) => Ok(report),
        Err(failure) => Err(failure.fault()),
    }
}

/// Runs a ledger, its clients, a connector, a broker and its subscribers, each on a thread of its own, until all have
/// finished, and reports what they come to. Each client submits its script, in its order. The gate is called before
/// each turn. A timestamp to start after applies to the first session only. If actors stop before they have finished,
/// the result is the fault of the first of them in the order of the places that met another fault than `PeerGone`, and
/// `PeerGone` only if none did. A thread that can't be started is `OutOfMemory`.
pub fn run<S: ProgressStore + Send + Drop, R: Threads + Wait + Sync, G: Gate + Sync>(
    rt: &R,
    alloc: Global,
    config: Config,
    scripts: Vec<Vec<Batch>>,
    faults: Faults,
    store: S,
    gate: &G,
) -> Result<Report, RunFault>
    requires fits { Fits config }
    requires scripts { vec_len scripts ≡ config.clients }
    ensures report { IfOk result (HasRun (map (λ s. s.items) scripts.items)) }
    ensures ran { IfOk result (RanFrom config faults (S.held store) (S.is_honest store) (S.risks store)
        (map (λ s. s.items) scripts.items)) }
    ensures counts { IfOk result (λ report. MayCount (plan_of faults) config.bindings.items report.counts) }
    ensures failure { IfErr result (λ fault. (failure : Failure S) × IsRunFailure config.system (S.is_honest store)
        (S.risks store) config.clients (length config.bindings.items) failure × (fault ≡ fault_answered failure)) }
    ensures subscribers { IfOk result (λ report. held_timestamp (S.held store) ≡ held_start (S.held store)
        → (closes : List (Option ℕ)) × AreCloses 1 faults.close.items closes
        × AreSubscribed report.ledger (first_origin config.start (S.held store)).start config.bindings.items closes
        report.subscribers.items) }
{
    without_explanation(run_explained(rt, alloc, config, scripts, faults, store, gate))
}
