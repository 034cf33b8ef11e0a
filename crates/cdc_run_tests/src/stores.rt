//! A run over a store that fails at one of its calls: the connector meets that fault, whichever call it is.

ghost use Rattle.std.specs.Prelude.{◌≡◌, ◌<◌, ◌-◌, ◌^◌, vec_len};
ghost use Rattle.cdc_run.specs.Configs.{Fits};
ghost use Rattle.cdc_types.specs.Windows.{IsWindow};

use crate::values::{accounts, transfer, two_of_all};
use cdc_actors::RunFault;
use cdc_progress::{MemoryStore, StoreError};
use cdc_run::{Config, Failure, Faults, Met, OpenGate, Place, Report, run_explained};
use cdc_types::Batch;
use std::alloc::Global;
use std::process::Abort;
use std::sync::Wait;
use std::thread::Threads;

// More calls than a run of these scripts makes.
const MOST_CALLS: u64 = 50;

// Opens this account and the next one, and makes two transfers between them, under the same two ids.
fn script(rt: &impl Abort, alloc: Global, first: u64) -> Vec<Batch>
    requires { first < 100 }
{
    let mut script = Vec::new(alloc);
    script.push(accounts(rt, alloc, first)).expect(rt, "memory");
    for id in [first, first + 1] {
        script
            .push(transfer(rt, alloc, 2000, first, id))
            .expect(rt, "memory");
    }
    script
}

// The scripts of two clients, whose accounts differ: four events, in whatever order their batches come.
fn scripts(rt: &impl Abort, alloc: Global) -> Vec<Vec<Batch>>
    ensures { vec_len result ≡ 2 }
{
    let mut scripts = Vec::new(alloc);
    scripts.push(script(rt, alloc, 1)).expect(rt, "memory");
    scripts.push(script(rt, alloc, 11)).expect(rt, "memory");
    scripts
}

// A run of two clients and two subscribers with this window.
fn config_of(rt: &impl Abort, alloc: Global, window: usize) -> Config
    requires { IsWindow window }
    ensures fits { Fits result }
    ensures clients { result.clients ≡ 2 }
{
    Config {
        system: 1,
        bindings: two_of_all(rt, alloc),
        clients: 2,
        window,
        prefetch: 8,
        start: None,
    }
}

// What a run comes to over a store whose call of this number fails; 0 is of none.
fn run_over<R: Threads + Wait + Abort + Sync>(
    rt: &R,
    alloc: Global,
    window: usize,
    call: u64,
) -> Result<Report, Failure<MemoryStore>>
    requires window { IsWindow window }
    requires call { call < 2 ^ 64 - 1 }
{
    let config = config_of(rt, alloc, window);
    let scripts = scripts(rt, alloc);
    let store = MemoryStore::with_faults(None, call, false);
    run_explained(
        rt,
        alloc,
        config,
        scripts,
        Faults::none(alloc),
        store,
        &OpenGate,
    )
}

// Whether the connector's store failed: the first call loads, and the others save.
fn is_of_store(failure: &Failure<MemoryStore>, call: u64) -> bool {
    let expected = if call == 1 {
        StoreError::ReadFault
    } else {
        StoreError::WriteFault
    };
    match failure {
        Failure::Stopped { place, met, .. } => {
            *place == Place::Connector && *met == Met::Fault(RunFault::Store(expected))
        }
        Failure::OutOfMemory => false,
    }
}

// Whether each subscriber has applied all four events and has received the end.
fn is_whole(report: &Report) -> bool {
    report.subscribers.len() == 2
        && report.subscribers.as_slice().iter().all(|subscriber| subscriber.applied_count() == 4
            && subscriber.ended())
}

// Fails at each call in turn. Returns the number of the first call that no run makes.
fn first_unmade<R: Threads + Wait + Abort + Sync>(rt: &R, alloc: Global, window: usize) -> u64
    requires { IsWindow window }
{
    for call in 1..MOST_CALLS {
        match run_over(rt, alloc, window, call) {
            Ok(report) => {
                assert!(rt; is_whole(&report));
                return call;
            }
            Err(failure) => assert!(rt; is_of_store(&failure, call)),
        }
    }
    panic!(rt; "each run fails")
}

// The store is loaded once, and saved as the session starts and for each of the four events.
#[test]
fn each_call_of_a_store_fails_with_a_window_of_one(rt: HostRuntime) {
    assert_eq!(rt; first_unmade(&rt, rt.alloc(), 1), 7);
}

#[test]
fn each_call_of_a_store_fails_with_a_window_of_64(rt: HostRuntime) {
    assert_eq!(rt; first_unmade(&rt, rt.alloc(), 64), 7);
}
