//! In each turn that a gate counts an actor receives one message.

ghost use Rattle.std.specs.Prelude.{◌≡◌, vec_len};

use crate::values::{accounts, all_events, transfers};
use cdc_actors::{Repeats, Story};
use cdc_progress::MemoryStore;
use cdc_run::{Config, Faults, Gate, Place, run};
use cdc_types::Batch;
use std::alloc::Global;
use std::hint::spin_loop;
use std::process::Abort;
use std::sync::atomic::{AtomicU64, Ordering};

// How often a hold looks before it fails.
const MOST_LOOKS: u32 = 1_000_000_000;

// How many events the run has.
const EVENTS: u64 = 4;

// Counts the turns of each place. It holds the broker's first turn until the connector asks for its third one, and that
// one until the broker asks for its third one. So several messages are ready for each of them. The test fails if a hold
// waits too long.
#[derive(Drop)]
struct CountingGate<'a, R: Abort> {
    rt: &'a R,
    ledger: AtomicU64,
    connector: AtomicU64,
    broker: AtomicU64,
    subscriber: AtomicU64,
}

impl<'a, R: Abort> CountingGate<'a, R> {
    fn new(rt: &'a R) -> CountingGate<'a, R> {
        CountingGate {
            rt,
            ledger: AtomicU64::new(0),
            connector: AtomicU64::new(0),
            broker: AtomicU64::new(0),
            subscriber: AtomicU64::new(0),
        }
    }

    // Waits until a place has asked for its third turn.
    fn hold(&self, turns: &AtomicU64) {
        for _ in 0..MOST_LOOKS {
            if turns.load(Ordering::SeqCst) >= 3 {
                return;
            }
            spin_loop();
        }
        panic!(self.rt; "a turn waits for another one, which doesn't come");
    }
}

impl<R: Abort> Gate for CountingGate<'_, R> {
    fn pass(&self, place: Place, turn: u64) {
        match place {
            Place::Ledger => self.ledger.store(turn, Ordering::SeqCst),
            Place::Client(_) => {}
            Place::Connector => self.connector.store(turn, Ordering::SeqCst),
            Place::Broker => self.broker.store(turn, Ordering::SeqCst),
            Place::Subscriber(_) => self.subscriber.store(turn, Ordering::SeqCst),
        }
        match (place, turn) {
            (Place::Broker, 1) => self.hold(&self.connector),
            (Place::Connector, 3) => self.hold(&self.broker),
            _ => {}
        }
    }

    fn observe_broker(&self, _story: Story) {}

    fn observe_subscriber(&self, _number: u64, _repeats: Repeats) {}
}

// One script of two batches, for the one client.
fn scripts(rt: &impl Abort, alloc: Global) -> Vec<Vec<Batch>>
    ensures { vec_len result ≡ 1 }
{
    let mut script = Vec::new(alloc);
    script.push(accounts(rt, alloc, 1)).expect(rt, "memory");
    script
        .push(transfers(rt, alloc, EVENTS))
        .expect(rt, "memory");
    let mut scripts = Vec::new(alloc);
    scripts.push(script).expect(rt, "memory");
    scripts
}

#[test]
fn a_turn_is_one_message(rt: HostRuntime) {
    let mut bindings = Vec::new(rt.alloc());
    bindings
        .push(all_events(&rt, rt.alloc()))
        .expect(&rt, "memory");
    let config = Config {
        system: 1,
        bindings,
        clients: 1,
        window: 8,
        prefetch: 8,
        start: None,
    };
    let scripts = scripts(&rt, rt.alloc());
    let gate = CountingGate::new(&rt);
    let faults = Faults::none(rt.alloc());
    let store = MemoryStore::new();
    let report = run(&rt, rt.alloc(), config, scripts, faults, store, &gate);
    assert!(rt; report.is_ok());
    // The events and the end mark, and the last message.
    assert_eq!(rt; gate.subscriber.load(Ordering::SeqCst), EVENTS + 2);
    // A connection, the events and the end mark; the connector's last message; as many acknowledgements as deliveries.
    assert_eq!(rt; gate.broker.load(Ordering::SeqCst), 2 * EVENTS + 4);
    // In its first turn the connector receives nothing. It receives a confirm of each packet, and a reply to each poll.
    // The ledger receives two batches, and that the client and the connector are done, besides the polls.
    let polls = gate.ledger.load(Ordering::SeqCst).saturating_sub(4);
    assert_eq!(rt;
        gate.connector.load(Ordering::SeqCst),
        1 + EVENTS + 2 + polls
    );
}
