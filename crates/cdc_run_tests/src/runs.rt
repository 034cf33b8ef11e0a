//! What the other tests leave out: whether a run fits, when a subscriber closes, the open gate.

use cdc_match::Binding;
use cdc_run::{Config, Faults, Gate, OpenGate, Place};

#[test]
fn a_run_of_one_client_and_one_subscriber_fits(rt: HostRuntime) {
    let all = Binding::parse(rt.alloc(), &["all"]).expect(&rt, "a binding");
    let mut bindings = Vec::new(rt.alloc());
    bindings.push(all).expect(&rt, "memory");
    let config = Config {
        system: 1,
        bindings,
        clients: 1,
        window: 1,
        prefetch: 8,
        start: None,
    };
    assert!(rt; config.fits());
}

#[test]
fn a_subscriber_closes_after_the_least_number_that_is_given(rt: HostRuntime) {
    let mut faults = Faults::none(rt.alloc());
    for entry in [(1, 0), (1, 3), (2, 1), (1, 2)] {
        faults.close.push(entry).expect(&rt, "memory");
    }
    assert_eq!(rt; faults.close_after(1), Some(2));
    assert_eq!(rt; faults.close_after(3), None);
    OpenGate.pass(Place::Subscriber(1), 1);
    assert!(rt; OpenGate.is_open());
}
