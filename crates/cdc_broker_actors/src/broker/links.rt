//! What the broker actor sends to the connector, and what it receives.

ghost use Rattle.std.specs.Prelude.{◌≡◌, IfErr, IfOk};
ghost use Rattle.cdc_broker_actors.specs.Broker.{as_confirm};
ghost use Rattle.cdc_actor_work.specs.declared.faults.RunFault.TheVariants.{PeerGone};
ghost use Rattle.cdc_links.specs.Links.{Takes, TakesIfSome, with_sent};
ghost use Rattle.cdc_traffic.specs.Following.{FollowsToBroker, IsConfirm};

use cdc_actor_work::{RunFault, receive_from, receive_ready_from, send_to};
use cdc_links::{LinkIn, LinkOut, Naming};
use cdc_message::{Answer, Confirm};
use cdc_traffic::{Past, ToBroker, ToConnector};
use std::sync::Wait;

// Names a message that names no past.
struct NoPast;

impl Naming<Option<Past>> for NoPast {
    ghost use Rattle.std.specs.Prelude.{None};

    ghost name = { None };
}

/// Answers a packet of a session.
pub(crate) fn confirm<R: Wait>(
    confirms: &mut LinkOut<ToConnector>,
    rt: &R,
    session: u64,
    answer: Answer,
) -> Result<(), RunFault>
    requires own { confirms.old.number ≡ 1 }
    requires is_one { IsConfirm (record { session = session; answer = answer }) }
    ensures after { IfOk result (λ _. confirms.new
        ≡ with_sent confirms.old (as_confirm (record { session = session; answer = answer }))) }
    ensures refused { IfErr result (λ fault. (fault ≡ PeerGone) × (confirms.new ≡ confirms.old)) }
{
    let confirm = ToConnector::Confirm(Confirm { session, answer });
    send_to::<NoPast, ToConnector, R>(confirms, rt, confirm)
}

/// Receives the next message.
pub(crate) fn receive<R: Wait>(inbox: &mut LinkIn<ToBroker>, rt: &R) -> Result<ToBroker, RunFault>
    ensures after { IfOk result (λ message. Takes FollowsToBroker inbox.old message inbox.new) }
    ensures refused { IfErr result (λ fault. (fault ≡ PeerGone) × (inbox.new ≡ inbox.old)) }
{
    receive_from(inbox, rt)
}

/// Receives the next message if there is one, and never waits.
pub(crate) fn receive_ready<R: Wait>(
    inbox: &mut LinkIn<ToBroker>,
    rt: &R,
) -> Result<Option<ToBroker>, RunFault>
    ensures after { IfOk result (λ ready.
        TakesIfSome FollowsToBroker inbox.old ready inbox.new) }
    ensures refused { IfErr result (λ fault. (fault ≡ PeerGone) × (inbox.new ≡ inbox.old)) }
{
    receive_ready_from(inbox, rt)
}
