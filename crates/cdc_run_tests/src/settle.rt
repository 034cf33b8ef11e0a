//! Actors of one system that have finished are settled. Actors of two systems aren't, nor are actors that haven't
//! begun, or of which one has met a fault.

ghost use Rattle.std.specs.Prelude.{◌≡◌, map};
ghost use Rattle.cdc_run.specs.Configs.{Fits};
ghost use Rattle.cdc_actors.specs.Seats.{client_seat, ledger_seat};
ghost use Rattle.cdc_run.specs.Seats.{connector_seat};
ghost use Rattle.cdc_broker_actors.specs.Seats.{broker_seat, subscriber_seat};
ghost use Rattle.cdc_run_tests.specs.Systems.{AreOfSystem, MayBeSettled, seats_of, sits_at};

use cdc_actors::{BrokerEnd, ClientEnd, ConnectorEnd, LedgerEnd, RunFault, SubscriberEnd};
use cdc_match::Binding;
use cdc_progress::{MemoryStore, StoreError};
use cdc_run::{Config, Ends, Faults, settle, wire_up};
use std::alloc::Global;
use std::mem::swap;
use std::process::Abort;
use std::sync::Wait;

// The configuration of a system with one client and one subscriber.
fn config_of(rt: &impl Abort, alloc: Global, system: u64) -> Config
    ensures fits { Fits result }
    ensures system { result.system ≡ system }
{
    let binding = Binding::parse(alloc, &["all"]).expect(rt, "a binding");
    let mut bindings = Vec::new(alloc);
    bindings.push(binding).expect(rt, "memory");
    Config {
        system,
        bindings,
        clients: 1,
        window: 1,
        prefetch: 8,
        start: None,
    }
}

// The actors of a system with one client and one subscriber over a store, before any turn.
fn actors_over(rt: &impl Abort, alloc: Global, system: u64, store: MemoryStore) -> Ends<MemoryStore>
    ensures { AreOfSystem system (seats_of result) }
{
    let config = config_of(rt, alloc, system);
    wire_up(alloc, config, Faults::none(alloc), store).expect(rt, "ends")
}

// The same over a store that holds nothing.
fn new_actors(rt: &impl Abort, alloc: Global, system: u64) -> Ends<MemoryStore>
    ensures { AreOfSystem system (seats_of result) }
{
    actors_over(rt, alloc, system, MemoryStore::new())
}

// The same, with a connector that has met a fault.
fn failed_actors<R: Wait + Abort>(rt: &R, alloc: Global, system: u64) -> Ends<MemoryStore>
    ensures { AreOfSystem system (seats_of result) }
{
    let mut ends = actors_over(rt, alloc, system, MemoryStore::with_faults(None, 1, false));
    fail_connector(rt, alloc, &mut ends.connector);
    ends
}

// Each of these takes one turn, or the one that a client without batches takes. The actor keeps its seat.

fn turn_ledger<R: Wait + Abort>(rt: &R, alloc: Global, end: &mut LedgerEnd)
    ensures { sits_at ledger_seat end.new ≡ sits_at ledger_seat end.old }
{
    end.turn(rt, alloc).expect(rt, "a turn");
}

fn turn_connector<R: Wait + Abort>(rt: &R, alloc: Global, end: &mut ConnectorEnd<MemoryStore>)
    ensures { sits_at connector_seat end.new ≡ sits_at connector_seat end.old }
{
    end.turn(rt, alloc).expect(rt, "a turn");
}

// A turn of a connector whose store fails.
fn fail_connector<R: Wait + Abort>(rt: &R, alloc: Global, end: &mut ConnectorEnd<MemoryStore>)
    ensures { sits_at connector_seat end.new ≡ sits_at connector_seat end.old }
{
    let turn = end.turn(rt, alloc);
    assert!(rt; matches!(&turn, Err(RunFault::Store(StoreError::ReadFault))));
    let again = end.turn(rt, alloc);
    assert!(rt; matches!(&again, Err(RunFault::Store(StoreError::ReadFault))));
}

fn turn_broker<R: Wait + Abort>(rt: &R, alloc: Global, end: &mut BrokerEnd)
    ensures { sits_at broker_seat end.new ≡ sits_at broker_seat end.old }
{
    end.turn(rt, alloc).expect(rt, "a turn");
}

fn turn_subscriber<R: Wait + Abort>(rt: &R, alloc: Global, end: &mut SubscriberEnd)
    ensures { sits_at subscriber_seat end.new ≡ sits_at subscriber_seat end.old }
{
    end.turn(rt, alloc).expect(rt, "a turn");
}

fn finish_client<R: Wait + Abort>(rt: &R, end: &mut ClientEnd)
    ensures { sits_at client_seat end.new ≡ sits_at client_seat end.old }
{
    end.finish(rt).expect(rt, "a client that is done");
}

// For all clients, and for all subscribers.

fn finish_clients<R: Wait + Abort>(rt: &R, ends: &mut Vec<ClientEnd>)
    ensures { map (sits_at client_seat) ends.new.items ≡ map (sits_at client_seat) ends.old.items }
{
    for end in ends.iter_mut() {
        finish_client(rt, end);
    }
}

fn turn_subscribers<R: Wait + Abort>(rt: &R, alloc: Global, ends: &mut Vec<SubscriberEnd>)
    ensures { map (sits_at subscriber_seat) ends.new.items
        ≡ map (sits_at subscriber_seat) ends.old.items }
{
    for end in ends.iter_mut() {
        turn_subscriber(rt, alloc, end);
    }
}

// The client reports that it is done. The connector polls, and connects to the broker.
fn ask<R: Wait + Abort>(rt: &R, alloc: Global, ends: &mut Ends<MemoryStore>)
    ensures { seats_of ends.new ≡ seats_of ends.old }
{
    finish_clients(rt, &mut ends.clients);
    turn_connector(rt, alloc, &mut ends.connector);
}

// The ledger receives from the client and the connector, and replies that nothing follows. The connector publishes
// the end mark.
fn publish<R: Wait + Abort>(rt: &R, alloc: Global, ends: &mut Ends<MemoryStore>)
    ensures { seats_of ends.new ≡ seats_of ends.old }
{
    turn_ledger(rt, alloc, &mut ends.ledger);
    turn_ledger(rt, alloc, &mut ends.ledger);
    turn_connector(rt, alloc, &mut ends.connector);
}

// The broker receives two messages, and the subscriber takes what it is sent.
fn deliver<R: Wait + Abort>(rt: &R, alloc: Global, ends: &mut Ends<MemoryStore>)
    ensures { seats_of ends.new ≡ seats_of ends.old }
{
    turn_broker(rt, alloc, &mut ends.broker);
    turn_broker(rt, alloc, &mut ends.broker);
    turn_subscribers(rt, alloc, &mut ends.subscribers);
}

// The connector receives both answers of the broker, and has finished. Then the ledger has finished too.
fn confirm<R: Wait + Abort>(rt: &R, alloc: Global, ends: &mut Ends<MemoryStore>)
    ensures { seats_of ends.new ≡ seats_of ends.old }
{
    turn_connector(rt, alloc, &mut ends.connector);
    turn_connector(rt, alloc, &mut ends.connector);
    turn_ledger(rt, alloc, &mut ends.ledger);
}

// The actors of a system of one client without batches and one subscriber, once all have finished. They take their
// turns on one thread, in an order in which each that receives has a message.
fn finished_actors<R: Wait + Abort>(rt: &R, alloc: Global, system: u64) -> Ends<MemoryStore>
    ensures { AreOfSystem system (seats_of result) }
{
    let mut ends = new_actors(rt, alloc, system);
    ask(rt, alloc, &mut ends);
    publish(rt, alloc, &mut ends);
    // The connection and the end mark.
    deliver(rt, alloc, &mut ends);
    confirm(rt, alloc, &mut ends);
    // The subscriber's acknowledgement, and the connector's last message.
    deliver(rt, alloc, &mut ends);
    ends
}

fn exchange_brokers(first: &mut Ends<MemoryStore>, second: &mut Ends<MemoryStore>)
    requires one { AreOfSystem 1 (seats_of first.old) }
    requires two { AreOfSystem 2 (seats_of second.old) }
    ensures first { MayBeSettled first.new }
    ensures second { MayBeSettled second.new }
{
    swap(&mut first.broker, &mut second.broker);
}

// Whether these actors aren't settled, since they aren't those of one system that has finished.
fn are_refused(alloc: Global, ends: Ends<MemoryStore>) -> bool
    requires { MayBeSettled ends }
{
    let settled = settle(alloc, ends);
    matches!(&settled, Err(RunFault::NotOneSystem))
}

#[test]
fn a_system_that_has_finished_is_settled(rt: HostRuntime) {
    let ends = finished_actors(&rt, rt.alloc(), 1);
    let report = settle(rt.alloc(), ends).expect(&rt, "a report");
    assert_eq!(rt;
        (
            report.replies.len(),
            report.subscribers.len(),
            report.deliveries.len()
        ),
        (1, 1, 1)
    );
}

#[test]
fn systems_whose_brokers_are_exchanged_are_not_settled(rt: HostRuntime) {
    let mut first = finished_actors(&rt, rt.alloc(), 1);
    let mut second = finished_actors(&rt, rt.alloc(), 2);
    exchange_brokers(&mut first, &mut second);
    assert!(rt; are_refused(rt.alloc(), first));
    assert!(rt; are_refused(rt.alloc(), second));
}

#[test]
fn nothing_is_settled_before_any_turn(rt: HostRuntime) {
    let ends = new_actors(&rt, rt.alloc(), 1);
    assert!(rt; are_refused(rt.alloc(), ends));
}

#[test]
fn an_actor_that_has_met_a_fault_is_not_settled(rt: HostRuntime) {
    let ends = failed_actors(&rt, rt.alloc(), 1);
    assert!(rt; are_refused(rt.alloc(), ends));
}
