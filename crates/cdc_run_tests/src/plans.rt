//! What a run's window and prefetch let through while nothing comes back. The links have room for as much.

ghost use Rattle.std.specs.Prelude.{◌≡◌, ◌≤◌, vec_len};
ghost use Rattle.cdc_run.specs.Configs.{Fits};
ghost use Rattle.cdc_types.specs.Windows.{IsWindow};

use crate::values::{accounts, all_events, eight_of_all, transfers};
use cdc_actors::{Repeats, Story};
use cdc_match::Binding;
use cdc_progress::MemoryStore;
use cdc_run::{Config, Faults, Gate, Place, run};
use cdc_types::Batch;
use std::alloc::Global;
use std::hint::spin_loop;
use std::process::Abort;
use std::sync::Wait;
use std::sync::atomic::{AtomicU64, Ordering};
use std::thread::Threads;

// How often a hold looks before it fails.
const MOST_LOOKS: u32 = 1_000_000_000;

// Whether a place is this one; subscriber 0 stands for all.
fn is_at(place: Place, named: Place) -> bool {
    match (place, named) {
        (Place::Subscriber(_), Place::Subscriber(0)) => true,
        _ => place == named,
    }
}

// Holds a turn of a place until another one has been asked for, by so many places.
#[derive(Drop)]
struct Hold {
    held: (Place, u64),
    awaited: (Place, u64),
    wanted: u64,
    asked: AtomicU64,
}

impl Hold {
    fn new(held: (Place, u64), awaited: (Place, u64), wanted: u64) -> Hold {
        Hold {
            held,
            awaited,
            wanted,
            asked: AtomicU64::new(0),
        }
    }

    fn note(&self, place: Place, turn: u64) {
        if is_at(place, self.awaited.0) && self.awaited.1 == turn {
            self.asked.fetch_add(1, Ordering::SeqCst);
        }
    }

    fn wait<R: Abort>(&self, rt: &R, place: Place, turn: u64) {
        if !is_at(place, self.held.0) || self.held.1 != turn {
            return;
        }
        for _ in 0..MOST_LOOKS {
            if self.asked.load(Ordering::SeqCst) >= self.wanted {
                return;
            }
            spin_loop();
        }
        panic!(rt; "a turn waits for another one, which doesn't come");
    }
}

// Several holds. The test fails if one waits too long.
#[derive(Drop)]
struct HoldingGate<'a, R: Abort> {
    rt: &'a R,
    holds: &'a [Hold],
}

impl<R: Abort> Gate for HoldingGate<'_, R> {
    fn pass(&self, place: Place, turn: u64) {
        for hold in self.holds {
            hold.note(place, turn);
        }
        for hold in self.holds {
            hold.wait(self.rt, place, turn);
        }
    }

    fn observe_broker(&self, _story: Story) {}

    fn observe_subscriber(&self, _number: u64, _repeats: Repeats) {}
}

// Two batches of one client, with so many events.
fn scripts(rt: &impl Abort, alloc: Global, events: u64) -> Vec<Vec<Batch>>
    ensures { vec_len result ≡ 1 }
{
    let mut script = Vec::new(alloc);
    script.push(accounts(rt, alloc, 1)).expect(rt, "memory");
    script
        .push(transfers(rt, alloc, events))
        .expect(rt, "memory");
    let mut scripts = Vec::new(alloc);
    scripts.push(script).expect(rt, "memory");
    scripts
}

fn one_of_all(rt: &impl Abort, alloc: Global) -> Vec<Binding>
    ensures { vec_len result ≡ 1 }
{
    let mut bindings = Vec::new(alloc);
    bindings.push(all_events(rt, alloc)).expect(rt, "memory");
    bindings
}

// A run of one client and these subscribers.
fn config_of(bindings: Vec<Binding>, window: usize, prefetch: u64) -> Config
    requires bindings { 1 ≤ vec_len bindings }
    requires few_bindings { vec_len bindings ≤ 8 }
    requires window { IsWindow window }
    requires some { 1 ≤ prefetch }
    requires few { prefetch ≤ 64 }
    ensures fits { Fits result }
    ensures clients { result.clients ≡ 1 }
{
    Config {
        system: 1,
        bindings,
        clients: 1,
        window,
        prefetch,
        start: None,
    }
}

// How many subscribers of a run with these holds have applied so many events, all that there are.
fn count_whole<R: Threads + Wait + Abort + Sync>(
    rt: &R,
    alloc: Global,
    config: Config,
    events: u64,
    holds: &[Hold],
) -> usize
    requires fits { Fits config }
    requires clients { config.clients ≡ 1 }
{
    let gate = HoldingGate { rt, holds };
    let scripts = scripts(rt, alloc, events);
    let faults = Faults::none(alloc);
    let report = run(
        rt,
        alloc,
        config,
        scripts,
        faults,
        MemoryStore::new(),
        &gate,
    )
    .ok()
    .expect(rt, "a report");
    report
        .subscribers
        .as_slice()
        .iter()
        .filter(|subscriber| subscriber.applied_count() == events && subscriber.ended())
        .count()
}

// The session begins once the ledger has both batches, and has received that the client is done.
fn begin_late() -> Hold {
    Hold::new((Place::Connector, 1), (Place::Ledger, 4), 1)
}

// The connector waits until the reply to its poll and the broker's answer to its connection have come, takes both in
// two turns, and publishes. Then it waits. Meanwhile the broker takes as many publishes as the window lets through, and
// confirms each. Then the subscriber has taken each of them, and asks for more.
fn fill_window<R: Threads + Wait + Abort + Sync>(rt: &R, alloc: Global, window: u64) -> usize
    requires some { 1 ≤ window }
    requires few { window ≤ 64 }
{
    let config = config_of(one_of_all(rt, alloc), window as usize, 8);
    let replied = Hold::new((Place::Connector, 2), (Place::Ledger, 5), 1);
    let connected = Hold::new((Place::Connector, 2), (Place::Broker, 2), 1);
    let published = Hold::new((Place::Connector, 4), (Place::Subscriber(1), window + 1), 1);
    let holds = [begin_late(), replied, connected, published];
    count_whole(rt, alloc, config, window + 1, &holds)
}

#[test]
fn a_window_of_3_is_published_before_any_confirm_comes(rt: HostRuntime) {
    assert_eq!(rt; fill_window(&rt, rt.alloc(), 3), 1);
}

#[test]
fn a_window_of_64_is_published_before_any_confirm_comes(rt: HostRuntime) {
    assert_eq!(rt; fill_window(&rt, rt.alloc(), 64), 1);
}

// The broker waits until the connector has sent the connection and all 64 publishes, and takes one of them in each turn.
// Then it waits until each subscriber has taken and acknowledged as many deliveries as the prefetch lets through, and
// asks for more. So the broker's link has room for all these acknowledgements.
fn fill_prefetch<R: Threads + Wait + Abort + Sync>(
    rt: &R,
    alloc: Global,
    bindings: Vec<Binding>,
    prefetch: u64,
) -> usize
    requires bindings { 1 ≤ vec_len bindings }
    requires few_bindings { vec_len bindings ≤ 8 }
    requires some { 1 ≤ prefetch }
    requires few { prefetch ≤ 64 }
{
    let subscribers = bindings.len() as u64;
    let config = config_of(bindings, 64, prefetch);
    let all_sent = Hold::new((Place::Broker, 1), (Place::Connector, 3), 1);
    let delivered = Hold::new(
        (Place::Broker, 66),
        (Place::Subscriber(0), prefetch + 1),
        subscribers,
    );
    count_whole(rt, alloc, config, 64, &[begin_late(), all_sent, delivered])
}

#[test]
fn a_prefetch_of_3_is_delivered_before_any_acknowledgement_comes(rt: HostRuntime) {
    let bindings = one_of_all(&rt, rt.alloc());
    assert_eq!(rt; fill_prefetch(&rt, rt.alloc(), bindings, 3), 1);
}

#[test]
fn eight_prefetches_of_64_are_delivered_before_any_acknowledgement_comes(rt: HostRuntime) {
    let bindings = eight_of_all(&rt, rt.alloc());
    assert_eq!(rt; fill_prefetch(&rt, rt.alloc(), bindings, 64), 8);
}
