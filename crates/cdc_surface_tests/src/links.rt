//! The public calls of links.

use cdc_links::{
    Handed, LinkFault, LinkIn, LinkOut, Message, Naming, SendRefused, Tally, link, settle,
};

const FAULTS: [LinkFault; 2] = [LinkFault::PeerGone, LinkFault::OutOfMemory];

fn fault(fault: LinkFault) -> (u8, &'static str) {
    match fault {
        LinkFault::PeerGone => (1, "peer_gone"),
        LinkFault::OutOfMemory => (2, "out_of_memory"),
    }
}

#[test]
fn faults_of_links_have_numbers_and_names(rt: HostRuntime) {
    for it in FAULTS {
        let number: u8 = it.number();
        let name: &'static str = it.name();
        assert_eq!(rt; (number, name), fault(it));
    }
}

// A number, which any sender may send.
#[derive(Clone, Copy, Debug, PartialEq, Eq)]
struct Number(u64);

impl Message for Number {
    type Name = ();

    ghost may_follow = { λ j before number. Unit {0} };
}

struct Nothing;

impl Naming<()> for Nothing {
    ghost name = { tt };
}

#[test]
fn a_link_has_its_calls(rt: HostRuntime) {
    let made: Result<(Vec<LinkOut<Number>>, LinkIn<Number>), LinkFault> = link::<Number>(
        rt.alloc(),
        2,
        1,
    );
    let (mut outs, mut into) = made.expect(&rt, "memory");
    let mut all = Vec::with_capacity(rt.alloc(), 1).expect(&rt, "memory");
    let mut out: LinkOut<Number> = outs.pop().expect(&rt, "one sender");
    let sent: Result<(), SendRefused<Number>> = out.send::<Nothing, HostRuntime>(&rt, Number(7));
    assert!(rt; sent.is_ok());
    let received: Result<Number, LinkFault> = into.receive(&rt);
    assert_eq!(rt; received, Ok(Number(7)));
    let counts: (u64, u64) = (out.sent_count(), into.received_count());
    assert_eq!(rt; counts, (1, 1));
    let handed: Handed<Number> = out.hand_back();
    all.push_reserved(handed);
    let tally: Tally = settle(into, all);
    let Tally { sent, received } = tally;
    let counts: (u64, u64) = (sent, received);
    assert_eq!(rt; counts, (1, 1));
}

#[test]
fn a_refused_send_returns_the_value(rt: HostRuntime) {
    let (mut outs, into) = link::<Number>(rt.alloc(), 2, 1).expect(&rt, "memory");
    let mut out = outs.pop().expect(&rt, "one sender");
    drop(into);
    match out.send::<Nothing, HostRuntime>(&rt, Number(7)) {
        Ok(()) => assert!(rt; false, "it was sent"),
        Err(SendRefused { value }) => assert_eq!(rt; value, Number(7)),
    }
}
