//! Links carry messages between threads, which no contract states. Each test ends by itself, on every schedule.
//!
//! A function that holds an endpoint of a link is proved to let go of it at each of its own exits, and a `?` is one.
//! So while an endpoint is held, a failure stops the test.

ghost use Rattle.std.specs.Prelude.{◌≡◌, ◌<◌, ◌≤◌, ◌+◌, length};

use crate::names::Nothing;
use cdc_links::{Handed, LinkFault, LinkIn, LinkOut, Message, Naming, Tally, link, settle};
use std::alloc::Global;
use std::process::Abort;
use std::sync::Wait;
use std::thread;
use std::thread::Threads;
use std::time::Duration;

// A message with its sender's number, and how many that sender has sent before it.
#[derive(Clone, Copy, Debug, PartialEq, Eq)]
struct Note {
    sender: u64,
    place: u64,
}

impl Message for Note {
    ghost use Rattle.std.specs.Prelude.{◌≡◌, length};

    type Name = ();

    ghost may_follow = { λ j before note. (note.0.sender ≡ j) × (note.0.place ≡ length before) };
}

// A message that owns memory, and names a number below 10.
#[derive(Debug, Drop)]
struct Letter {
    text: String,
}

impl Message for Letter {
    ghost use Rattle.std.specs.Prelude.{◌≡◌, ◌<◌};

    type Name = u64;

    ghost may_follow = { λ j before letter. letter.1 < 10 };
}

// Names a letter.
struct Seven;

impl Naming<u64> for Seven {
    ghost name = { 7 };
}

// Sends so many notes, or stops when the receiver is gone.
fn send_notes<R: Wait>(rt: &R, mut out: LinkOut<Note>, sender: u64, count: u64) -> Handed<Note>
    requires { out.number ≡ sender }
    ensures { result.link ≡ out.link }
{
    for _ in 0..count {
        let place = out.sent_count();
        let Ok(()) = out.send::<Nothing, R>(rt, Note { sender, place }) else {
            break;
        };
    }
    out.hand_back()
}

// Sends a note, and hangs up.
fn send_one_and_hang_up<R: Wait + Abort>(
    rt: &R,
    mut out: LinkOut<Note>,
    sender: u64,
) -> Handed<Note>
    requires { out.number ≡ sender }
    ensures { result.link ≡ out.link }
{
    let place = out.sent_count();
    let is_sent = out.send::<Nothing, R>(rt, Note { sender, place }).is_ok();
    assert!(rt; is_sent);
    out.hang_up(rt)
}

// Receives so many notes from at most three senders. Those of each sender come in its order.
fn receive_notes<R: Wait + Abort>(rt: &R, mut into: LinkIn<Note>, count: u64) -> LinkIn<Note>
    ensures { (result.link ≡ into.link) × (result.senders ≡ into.senders) }
{
    let mut places = [0u64; 3];
    for _ in 0..count {
        let Ok(note) = into.receive(rt) else {
            break;
        };
        assert!(rt; note.sender < 3 && note.place < u64::MAX);
        let sender = note.sender as usize;
        assert_eq!(rt; note.place, places[sender]);
        places[sender] = note.place + 1;
    }
    into
}

// The tally of a link with one sender, over which so many notes are sent and so many of them received.
fn one_sender<R: Wait + Abort>(rt: &R, alloc: Global, sent: u64, received: u64) -> Tally {
    let (mut outs, into) = link::<Note>(alloc, 4, 1).expect(rt, "memory");
    let mut all = Vec::with_capacity(alloc, 1).expect(rt, "memory");
    let out = outs.pop().expect(rt, "one sender");
    let delivered = send_notes(rt, out, 0, sent);
    let into = receive_notes(rt, into, received);
    all.push_reserved(delivered);
    settle(into, all)
}

#[test]
fn what_is_sent_is_received_or_left(rt: HostRuntime) {
    for (sent, received) in [(2, 2), (3, 1), (4, 0), (0, 0)] {
        let tally = one_sender(&rt, rt.alloc(), sent, received);
        assert_eq!(rt; tally, Tally { sent, received });
    }
}

#[test]
fn a_letter_comes_back_where_the_receiver_is_gone(rt: HostRuntime) {
    let (mut outs, into) = link::<Letter>(rt.alloc(), 2, 1).expect(&rt, "memory");
    let mut out = outs.pop().expect(&rt, "one sender");
    let text = String::from_str(rt.alloc(), "kept").expect(&rt, "memory");
    assert!(rt; out.send::<Seven, HostRuntime>(&rt, Letter { text }).is_ok());
    drop(into);
    let text = String::from_str(rt.alloc(), "refused").expect(&rt, "memory");
    match out.send::<Seven, HostRuntime>(&rt, Letter { text }) {
        Ok(()) => assert!(rt; false, "it was sent"),
        Err(refused) => assert_eq!(rt; refused.value.text.as_str(), "refused"),
    }
    assert_eq!(rt; out.sent_count(), 1);
}

#[test]
fn a_receive_answers_that_the_senders_are_gone(rt: HostRuntime) {
    let (mut outs, mut into) = link::<Letter>(rt.alloc(), 2, 2).expect(&rt, "memory");
    let mut out = outs.pop().expect(&rt, "two senders");
    let text = String::from_str(rt.alloc(), "last").expect(&rt, "memory");
    assert!(rt; out.send::<Seven, HostRuntime>(&rt, Letter { text }).is_ok());
    drop(out);
    drop(outs);
    match into.receive(&rt) {
        Ok(letter) => assert_eq!(rt; letter.text.as_str(), "last"),
        Err(_) => assert!(rt; false, "nothing was received"),
    }
    for _ in 0..2 {
        match into.receive(&rt) {
            Ok(_) => assert!(rt; false, "it was received twice"),
            Err(fault) => assert_eq!(rt; fault, LinkFault::PeerGone),
        }
    }
    assert_eq!(rt; into.received_count(), 1);
}

#[test]
fn a_receive_answers_that_one_of_two_senders_failed(rt: HostRuntime) {
    let (mut outs, mut into) = link::<Note>(rt.alloc(), 1, 2).expect(&rt, "memory");
    let second = outs.pop().expect(&rt, "two senders");
    let first = outs.pop().expect(&rt, "two senders");
    let delivered = send_notes(&rt, second, 1, 1);
    let gone = send_one_and_hang_up(&rt, first, 0);
    for sender in [1u64, 0] {
        match into.receive(&rt) {
            Ok(note) => assert_eq!(rt; note, Note { sender, place: 0 }),
            Err(_) => assert!(rt; false, "what was sent before is lost"),
        }
    }
    match into.receive(&rt) {
        Ok(_) => assert!(rt; false, "it was received twice"),
        Err(fault) => assert_eq!(rt; fault, LinkFault::PeerGone),
    }
    let mut all = Vec::with_capacity(rt.alloc(), 2).expect(&rt, "memory");
    all.push_reserved(gone);
    all.push_reserved(delivered);
    assert_eq!(rt;
        settle(into, all),
        Tally {
            sent: 2,
            received: 2
        }
    );
}

#[test]
fn an_actor_that_failed_sends_nothing(rt: HostRuntime) {
    let (mut outs, mut into) = link::<Letter>(rt.alloc(), 1, 1).expect(&rt, "memory");
    let mut out = outs.pop().expect(&rt, "one sender");
    let text = String::from_str(rt.alloc(), "before").expect(&rt, "memory");
    assert!(rt; out.send::<Seven, HostRuntime>(&rt, Letter { text }).is_ok());
    out.abort(&rt);
    out.abort(&rt);
    let text = String::from_str(rt.alloc(), "after").expect(&rt, "memory");
    assert!(rt;
        out.send::<Seven, HostRuntime>(&rt, Letter { text })
            .is_err()
    );
    assert!(rt; into.receive(&rt).is_ok());
    assert!(rt; into.receive(&rt).is_err());
    assert_eq!(rt; (out.sent_count(), into.received_count()), (1, 1));
}

// Two senders and the receiver on a thread each: the tally of a link with room for `capacity` notes.
fn two_senders<R: Threads + Wait + Abort + Sync>(
    rt: &R,
    alloc: Global,
    capacity: usize,
    count: u64,
) -> Tally
    requires { 0 < capacity }
{
    let (mut outs, into) = link::<Note>(alloc, capacity, 2).expect(rt, "memory");
    let mut all = Vec::with_capacity(alloc, 2).expect(rt, "memory");
    let second = outs.pop().expect(rt, "two senders");
    let first = outs.pop().expect(rt, "two senders");
    let (first, (second, into)) = thread::join(
        rt,
        move ||
            requires { first.number ≡ 0 }
            ensures { result.link ≡ first.link }
        { send_notes(rt, first, 0, count) },
        move ||
            requires { second.number ≡ 1 }
            ensures { (result.0.link ≡ second.link)
                × (result.1.link ≡ into.link) × (result.1.senders ≡ into.senders) }
        { beside(rt, second, into, count) },
    );
    all.push_reserved(first);
    all.push_reserved(second);
    settle(into, all)
}

// The second sender on a thread of its own, next to the receiver, which takes the notes of both.
fn beside<R: Threads + Wait + Abort + Sync>(
    rt: &R,
    second: LinkOut<Note>,
    into: LinkIn<Note>,
    count: u64,
) -> (Handed<Note>, LinkIn<Note>)
    requires { second.number ≡ 1 }
    ensures { (result.0.link ≡ second.link)
        × (result.1.link ≡ into.link) × (result.1.senders ≡ into.senders) }
{
    thread::join(
        rt,
        move ||
            requires { second.number ≡ 1 }
            ensures { result.link ≡ second.link }
        { send_notes(rt, second, 1, count) },
        move ||
            ensures { (result.link ≡ into.link) × (result.senders ≡ into.senders) }
        { receive_notes(rt, into, count.saturating_mul(2)) },
    )
}

#[test]
fn two_senders_take_turns_over_few_places(rt: HostRuntime) {
    for capacity in [1usize, 3] {
        assert!(rt; capacity > 0);
        let tally = two_senders(&rt, rt.alloc(), capacity, 50);
        assert_eq!(rt;
            tally,
            Tally {
                sent: 100,
                received: 100
            }
        );
    }
}

#[test]
fn a_receive_waits_for_a_late_send(rt: HostRuntime) {
    let (mut outs, into) = link::<Note>(rt.alloc(), 1, 1).expect(&rt, "memory");
    let out = outs.pop().expect(&rt, "one sender");
    let (delivered, into) = thread::join(
        &rt,
        move ||
            requires { out.number ≡ 0 }
        {
            thread::sleep(&rt, Duration::from_millis(50));
            send_notes(&rt, out, 0, 1)
        },
        move || receive_notes(&rt, into, 1),
    );
    assert_eq!(rt; into.received_count(), 1);
    drop(delivered);
}

#[test]
fn ten_thousand_notes_of_three_senders(rt: HostRuntime) {
    let (mut outs, into) = link::<Note>(rt.alloc(), 16, 3).expect(&rt, "memory");
    let third = outs.pop().expect(&rt, "three senders");
    let second = outs.pop().expect(&rt, "three senders");
    let first = outs.pop().expect(&rt, "three senders");
    let one = thread::spawn(&rt, move || drop(send_notes(&rt, first, 0, 3334)));
    let two = thread::spawn(&rt, move || drop(send_notes(&rt, second, 1, 3333)));
    let three = thread::spawn(&rt, move || drop(send_notes(&rt, third, 2, 3333)));
    assert!(rt; one.is_ok() && two.is_ok() && three.is_ok());
    let into = receive_notes(&rt, into, 10_001);
    assert_eq!(rt; into.received_count(), 10_000);
}

#[test]
fn a_fault_has_a_number_and_a_name(rt: HostRuntime) {
    let (gone, memory) = (LinkFault::PeerGone, LinkFault::OutOfMemory);
    assert_eq!(rt; (gone.number(), memory.number()), (1, 2));
    assert_eq!(rt;
        (gone.name(), memory.name()),
        ("peer_gone", "out_of_memory")
    );
}
