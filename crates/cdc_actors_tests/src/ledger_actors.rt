//! A ledger actor without peers reports so, and one with peers finds memory: it keeps a poll, closes, replies and
//! finishes.

ghost use Rattle.std.specs.Prelude.{◌≡◌, []};

use crate::names::Nothing;
use crate::receiving::learns_of_a_loss;
use cdc_actors::{ClientEnd, LedgerEnd, RunFault, Turn};
use cdc_links::{LinkIn, LinkOut, SendRefused, link};
use cdc_traffic::{Poll, Reply, ToConnector, ToLedger};
use std::alloc::Global;
use std::process::Abort;
use std::sync::Wait;

// The next turns of an actor have these results.
fn turn_so<R: Wait + Abort>(
    rt: &R,
    alloc: Global,
    end: &mut LedgerEnd,
    answers: &[Result<Turn, RunFault>],
) {
    for answer in answers {
        assert_eq!(rt; end.turn(rt, alloc), *answer);
    }
}

#[test]
fn a_ledger_without_peers(rt: HostRuntime) {
    let (senders, inbox) = link::<ToLedger>(rt.alloc(), 5, 2).expect(&rt, "memory");
    let (clients, mut answers) = link::<Reply>(rt.alloc(), 1, 1).expect(&rt, "memory");
    let (mut tellers, mut replies) = link::<ToConnector>(rt.alloc(), 5, 2).expect(&rt, "memory");
    let _broker = tellers.pop().expect(&rt, "two senders");
    let connector = tellers.pop().expect(&rt, "two senders");
    drop(senders);
    let mut end = LedgerEnd::new(rt.alloc(), 1, inbox, clients, connector);
    let gone = Err(RunFault::PeerGone);
    turn_so(&rt, rt.alloc(), &mut end, &[gone, gone]);
    assert!(rt; learns_of_a_loss(&rt, &mut answers) && learns_of_a_loss(&rt, &mut replies));
}

// The connector polls for an event, and reports that it is done.
fn poll_and_finish<R: Wait>(
    rt: &R,
    polls: &mut LinkOut<ToLedger>,
) -> Result<(), SendRefused<ToLedger>>
    requires first { polls.old.number ≡ 0 }
    requires silent { polls.old.sent ≡ [] }
{
    let poll = Poll {
        session: 1,
        number: 1,
        after: 0,
        limit: 1,
    };
    polls.send::<Nothing, R>(rt, ToLedger::Poll(poll))?;
    polls.send::<Nothing, R>(rt, ToLedger::Finish)
}

// Whether the reply to a poll reports that nothing follows.
fn is_complete<R: Wait>(rt: &R, replies: &mut LinkIn<ToConnector>) -> bool {
    match replies.receive(rt) {
        Ok(ToConnector::PollReply(reply)) => reply.complete,
        _ => false,
    }
}

#[test]
fn a_ledger_keeps_a_poll_and_closes(rt: HostRuntime) {
    let (mut senders, inbox) = link::<ToLedger>(rt.alloc(), 5, 2).expect(&rt, "memory");
    let (clients, answers) = link::<Reply>(rt.alloc(), 1, 1).expect(&rt, "memory");
    let (mut tellers, mut replies) = link::<ToConnector>(rt.alloc(), 5, 1).expect(&rt, "memory");
    let connector = tellers.pop().expect(&rt, "one sender");
    let requests = senders.pop().expect(&rt, "two senders");
    let mut polls = senders.pop().expect(&rt, "two senders");
    assert!(rt; poll_and_finish(&rt, &mut polls).is_ok());
    drop(polls);
    let mut client = ClientEnd::new(rt.alloc(), 1, 1, requests, answers);
    assert!(rt; client.finish(&rt).is_ok());
    let mut end = LedgerEnd::new(rt.alloc(), 1, inbox, clients, connector);
    let (more, finished) = (Ok(Turn::More), Ok(Turn::Finished));
    turn_so(&rt, rt.alloc(), &mut end, &[more, more, finished, finished]);
    assert!(rt; is_complete(&rt, &mut replies));
    assert!(rt; end.system() == 1 && end.into_parts().is_some());
}
