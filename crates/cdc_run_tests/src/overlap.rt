//! The actors of a run work at the same time, each on a thread of its own.

ghost use Rattle.std.specs.Prelude.{◌≡◌, ◌+◌, ◌≤◌, vec_len};
ghost use Rattle.cdc_run.specs.Configs.{Fits};

use crate::values::{accounts, eight_of_all, transfer, two_of_all};
use cdc_actors::{Repeats, Story};
use cdc_match::Binding;
use cdc_progress::MemoryStore;
use cdc_run::{Config, Faults, Gate, Place, Report, run};
use cdc_subscriber::Subscriber;
use cdc_types::Batch;
use std::alloc::Global;
use std::hint::spin_loop;
use std::process::Abort;
use std::sync::atomic::{AtomicU64, Ordering};

// How often a hold looks before it fails.
const MOST_LOOKS: u32 = 1_000_000_000;

// Holds the first turn of every place until all have been asked for. Then it holds the third turn of client 1 until
// the second one of the last subscriber has been asked for, and the other way round. The test fails if a hold waits
// too long.
#[derive(Drop)]
struct MeetingGate<'a, R: Abort> {
    rt: &'a R,
    // How many places there are, and the last subscriber's number.
    places: u64,
    last: u64,
    // How many of these turns were asked for.
    first: AtomicU64,
    third_of_client: AtomicU64,
    second_of_subscriber: AtomicU64,
}

impl<'a, R: Abort> MeetingGate<'a, R> {
    fn new(rt: &'a R, places: u64, last: u64) -> MeetingGate<'a, R> {
        MeetingGate {
            rt,
            places,
            last,
            first: AtomicU64::new(0),
            third_of_client: AtomicU64::new(0),
            second_of_subscriber: AtomicU64::new(0),
        }
    }

    // How many of each of the three turns were held.
    fn held(&self) -> [u64; 3] {
        [
            self.first.load(Ordering::SeqCst),
            self.third_of_client.load(Ordering::SeqCst),
            self.second_of_subscriber.load(Ordering::SeqCst),
        ]
    }

    // Counts a turn, and holds it until so many others have been asked for.
    fn hold(&self, mine: &AtomicU64, others: &AtomicU64, wanted: u64) {
        mine.fetch_add(1, Ordering::SeqCst);
        for _ in 0..MOST_LOOKS {
            if others.load(Ordering::SeqCst) >= wanted {
                return;
            }
            spin_loop();
        }
        panic!(self.rt; "a turn waits for another end, which doesn't come");
    }
}

impl<R: Abort> Gate for MeetingGate<'_, R> {
    fn pass(&self, place: Place, turn: u64) {
        match (place, turn) {
            (_, 1) => self.hold(&self.first, &self.first, self.places),
            (Place::Client(1), 3) => {
                self.hold(&self.third_of_client, &self.second_of_subscriber, 1)
            }
            (Place::Subscriber(number), 2) if number == self.last => {
                self.hold(&self.second_of_subscriber, &self.third_of_client, 1)
            }
            _ => {}
        }
    }

    fn observe_broker(&self, _story: Story) {}

    fn observe_subscriber(&self, _number: u64, _repeats: Repeats) {}
}

// One script, for the one client.
fn scripts(rt: &impl Abort, alloc: Global) -> Vec<Vec<Batch>>
    ensures { vec_len result ≡ 1 }
{
    let mut script = Vec::new(alloc);
    script.push(accounts(rt, alloc, 1)).expect(rt, "memory");
    script
        .push(transfer(rt, alloc, 2000, 1, 1))
        .expect(rt, "memory");
    script
        .push(transfer(rt, alloc, 3000, 1, 2))
        .expect(rt, "memory");
    let mut scripts = Vec::new(alloc);
    scripts.push(script).expect(rt, "memory");
    scripts
}

// A run of one client and these subscribers.
fn config_of(bindings: Vec<Binding>) -> Config
    requires some { 1 ≤ vec_len bindings }
    requires few { vec_len bindings ≤ 8 }
    ensures fits { Fits result }
    ensures clients { result.clients ≡ 1 }
{
    Config {
        system: 1,
        bindings,
        clients: 1,
        window: 1,
        prefetch: 8,
        start: None,
    }
}

fn has_seen_all(subscriber: &Subscriber) -> bool {
    subscriber.applied_count() == 2 && subscriber.last() == 3000
}

fn count_seen(report: &Report) -> usize {
    report
        .subscribers
        .as_slice()
        .iter()
        .filter(|subscriber| has_seen_all(subscriber))
        .count()
}

#[test]
fn two_actors_at_once(rt: HostRuntime) {
    let config = config_of(two_of_all(&rt, rt.alloc()));
    let scripts = scripts(&rt, rt.alloc());
    // One client and two subscribers, besides the ledger, the connector and the broker.
    let gate = MeetingGate::new(&rt, 6, 2);
    let faults = Faults::none(rt.alloc());
    let store = MemoryStore::new();
    let report = run(&rt, rt.alloc(), config, scripts, faults, store, &gate)
        .ok()
        .expect(&rt, "a report");
    assert_eq!(rt; gate.held(), [6, 1, 1]);
    assert_eq!(rt; count_seen(&report), 2);
}

#[test]
fn twelve_actors_at_once(rt: HostRuntime) {
    let config = config_of(eight_of_all(&rt, rt.alloc()));
    let scripts = scripts(&rt, rt.alloc());
    let gate = MeetingGate::new(&rt, 12, 8);
    let faults = Faults::none(rt.alloc());
    let store = MemoryStore::new();
    let report = run(&rt, rt.alloc(), config, scripts, faults, store, &gate)
        .ok()
        .expect(&rt, "a report");
    assert_eq!(rt; gate.held(), [12, 1, 1]);
    assert_eq!(rt; count_seen(&report), 8);
}
