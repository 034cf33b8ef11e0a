//! The public calls of a run on threads. All of its types have their names in the crate of runs.

ghost use Rattle.std.specs.Prelude.{◌≡◌, ℕ, false, vec_len};
ghost use Rattle.cdc_run.specs.Configs.{Fits};
ghost use Rattle.cdc_run.specs.Wirings.{AreSeated, Wiring};

use crate::values::{accounts, all, transfers};
use cdc_ledger::Ledger;
use cdc_progress::{MemoryStore, ProgressStore, StoreError};
use cdc_run::{
    BrokerEnd, ClientEnd, Config, ConnectorEnd, Ends, Faults, Gate, LedgerEnd, OpenGate, Place,
    Reply, Report, RunFault, SubscriberEnd, Turn, run, settle, wire_up,
};
use cdc_subscriber::Subscriber;
use cdc_types::Batch;
use std::alloc::Global;
use std::process::Abort;
use std::sync::Wait;
use std::thread::Threads;

const FAULTS: [RunFault; 6] = [
    RunFault::PeerGone,
    RunFault::OutOfMemory,
    RunFault::Store(StoreError::ReadFault),
    RunFault::SessionsExhausted,
    RunFault::NotOneSystem,
    RunFault::StartNotAllowed,
];

fn fault(fault: RunFault) -> (u8, &'static str) {
    match fault {
        RunFault::PeerGone => (1, "peer_gone"),
        RunFault::OutOfMemory => (2, "out_of_memory"),
        RunFault::Store(_) => (3, "store"),
        RunFault::SessionsExhausted => (4, "sessions_exhausted"),
        RunFault::NotOneSystem => (5, "not_one_system"),
        RunFault::StartNotAllowed => (6, "start_not_allowed"),
    }
}

#[test]
fn faults_of_runs_have_numbers_and_names(rt: HostRuntime) {
    for it in FAULTS {
        let number: u8 = it.number();
        let name: &'static str = it.name();
        assert_eq!(rt; (number, name), fault(it));
    }
}

fn number_of(place: Place) -> u64 {
    match place {
        Place::Ledger => 0,
        Place::Client(number) => number,
        Place::Connector => 0,
        Place::Broker => 0,
        Place::Subscriber(number) => number,
    }
}

// Asks a gate for the first turn of each kind of place.
fn pass_all<G: Gate>(gate: &G) -> u64 {
    let mut sum: u64 = 0;
    for place in [
        Place::Ledger,
        Place::Client(1),
        Place::Connector,
        Place::Broker,
        Place::Subscriber(2),
    ] {
        gate.pass(place, 1);
        sum = sum.saturating_add(number_of(place));
    }
    sum
}

#[test]
fn an_open_gate_lets_all_pass(rt: HostRuntime) {
    assert_eq!(rt; pass_all(&OpenGate), 3);
}

// A run of one client and one subscriber.
fn config(rt: &impl Abort, alloc: Global) -> Config
    ensures fits { Fits result }
    ensures clients { result.clients ≡ 1 }
{
    let binding = all(rt, alloc);
    let mut bindings = Vec::new(alloc);
    bindings.push(binding).expect(rt, "memory");
    Config {
        system: 1,
        bindings,
        clients: 1,
        window: 1,
        prefetch: 8,
        start: None,
    }
}

// A plan without faults.
fn faults(alloc: Global) -> Faults {
    Faults {
        lose_confirm: Vec::new(alloc),
        lose_publish: Vec::new(alloc),
        restart_after: Vec::new(alloc),
        repeat: Vec::new(alloc),
        close: Vec::new(alloc),
    }
}

// The script of one client, with one event.
fn scripts(rt: &impl Abort, alloc: Global) -> Vec<Vec<Batch>>
    ensures { vec_len result ≡ 1 }
{
    let mut script = Vec::new(alloc);
    script.push(accounts(rt, alloc)).expect(rt, "memory");
    script.push(transfers(rt, alloc)).expect(rt, "memory");
    let mut scripts = Vec::new(alloc);
    scripts.push(script).expect(rt, "memory");
    scripts
}

// A run over a store.
fn run_over<R: Threads + Wait + Abort + Sync>(
    rt: &R,
    alloc: Global,
    store: MemoryStore,
) -> Result<Report, RunFault> {
    let config = config(rt, alloc);
    let scripts = scripts(rt, alloc);
    run(rt, alloc, config, scripts, faults(alloc), store, &OpenGate)
}

#[test]
fn a_run_has_a_report(rt: HostRuntime) {
    let report: Report = run_over(&rt, rt.alloc(), MemoryStore::new()).expect(&rt, "a report");
    let ledger: &Ledger = &report.ledger;
    let replies: &Vec<Vec<Reply>> = &report.replies;
    let subscribers: &Vec<Subscriber> = &report.subscribers;
    assert!(rt; ledger.closed());
    assert_eq!(rt; (replies.len(), subscribers.len()), (1, 1));
}

#[test]
fn a_run_that_fails_has_a_fault(rt: HostRuntime) {
    let store = MemoryStore::with_faults(None, 1, false);
    match run_over(&rt, rt.alloc(), store) {
        Ok(_) => assert!(rt; false, "the run succeeded"),
        Err(fault) => assert_eq!(rt; fault, RunFault::Store(StoreError::ReadFault)),
    }
}

#[test]
fn a_configuration_fits(rt: HostRuntime) {
    let fits: bool = config(&rt, rt.alloc()).fits();
    assert!(rt; fits);
}

// The actors of a run, before any turn.
fn ends(rt: &impl Abort, alloc: Global) -> Ends<MemoryStore> {
    let config = config(rt, alloc);
    let ends: Result<Ends<MemoryStore>, RunFault> = wire_up(
        alloc,
        config,
        faults(alloc),
        MemoryStore::new(),
    );
    ends.expect(rt, "memory")
}

// The turns of the actors of a run without batches, in an order in which each that receives has a message.
fn client_turn<R: Wait + Abort>(rt: &R, end: &mut ClientEnd) {
    let finished: Result<(), RunFault> = end.finish(rt);
    finished.expect(rt, "a client that is done");
}

fn ledger_turn<R: Wait + Abort>(rt: &R, alloc: Global, end: &mut LedgerEnd) -> bool {
    let turn: Result<Turn, RunFault> = end.turn(rt, alloc);
    has_finished(turn.expect(rt, "a turn"))
}

fn connector_turn<R: Wait + Abort>(
    rt: &R,
    alloc: Global,
    end: &mut ConnectorEnd<MemoryStore>,
) -> bool {
    let turn: Result<Turn, RunFault> = end.turn(rt, alloc);
    has_finished(turn.expect(rt, "a turn"))
}

fn broker_turn<R: Wait + Abort>(rt: &R, alloc: Global, end: &mut BrokerEnd) -> bool {
    let turn: Result<Turn, RunFault> = end.turn(rt, alloc);
    has_finished(turn.expect(rt, "a turn"))
}

fn subscriber_turn<R: Wait + Abort>(rt: &R, alloc: Global, end: &mut SubscriberEnd) -> bool {
    let turn: Result<Turn, RunFault> = end.turn(rt, alloc);
    has_finished(turn.expect(rt, "a turn"))
}

fn has_finished(turn: Turn) -> bool {
    match turn {
        Turn::More => false,
        Turn::Finished => true,
    }
}

// Two turns of the broker, each with one message, and one of the subscriber, which receives what the broker sent.
fn deliver<R: Wait + Abort>(rt: &R, alloc: Global, ends: &mut Ends<MemoryStore>) -> bool {
    assert!(rt; !broker_turn(rt, alloc, &mut ends.broker));
    let mut finished = broker_turn(rt, alloc, &mut ends.broker);
    for end in ends.subscribers.iter_mut() {
        finished = subscriber_turn(rt, alloc, end) && finished;
    }
    finished
}

#[test]
fn actors_take_turns(rt: HostRuntime) {
    let mut ends = ends(&rt, rt.alloc());
    for end in ends.clients.iter_mut() {
        client_turn(&rt, end);
    }
    assert!(rt; !connector_turn(&rt, rt.alloc(), &mut ends.connector));
    assert!(rt; !ledger_turn(&rt, rt.alloc(), &mut ends.ledger));
    assert!(rt; !ledger_turn(&rt, rt.alloc(), &mut ends.ledger));
    assert!(rt; !connector_turn(&rt, rt.alloc(), &mut ends.connector));
    assert!(rt; !deliver(&rt, rt.alloc(), &mut ends));
    assert!(rt; !connector_turn(&rt, rt.alloc(), &mut ends.connector));
    assert!(rt; connector_turn(&rt, rt.alloc(), &mut ends.connector));
    assert!(rt; ledger_turn(&rt, rt.alloc(), &mut ends.ledger));
    assert!(rt; deliver(&rt, rt.alloc(), &mut ends));
}

// The tests of runs call these two, over actors of which they prove what is required here.

/// Puts actors together once they have finished.
pub fn settled<S: ProgressStore + Drop>(alloc: Global, ends: Ends<S>) -> Result<Report, RunFault>
    requires { (wiring : ℕ → Wiring) × AreSeated wiring ends }
{
    settle(alloc, ends)
}

/// Submits a batch.
pub fn submitted<R: Wait>(
    rt: &R,
    alloc: Global,
    client: &mut ClientEnd,
    batch: Batch,
) -> Result<Reply, RunFault>
    requires { client.old.work.finished ≡ false }
{
    client.submit(rt, alloc, batch)
}
