//! What a connector sends to the ledger and to the broker, and what it receives.

ghost use Rattle.std.specs.Prelude.{◌≡◌, IfErr, IfOk};
ghost use Rattle.cdc_actor_work.specs.declared.faults.RunFault.TheVariants.{PeerGone};
ghost use Rattle.cdc_links.specs.Links.{Takes, TakesIfSome, with_sent};
ghost use Rattle.cdc_traffic.specs.Following.{FollowsToBroker, FollowsToConnector, FollowsToLedger};

use cdc_actor_work::{Nothing, RunFault, receive_from, receive_ready_from, send_to};
use cdc_links::{LinkIn, LinkOut};
use cdc_traffic::{ToBroker, ToConnector, ToLedger};
use std::sync::Wait;

pub(crate) fn send_message<R: Wait>(
    polls: &mut LinkOut<ToLedger>,
    rt: &R,
    message: ToLedger,
) -> Result<(), RunFault>
    requires { FollowsToLedger polls.old.number polls.old.sent (message, tt) }
    ensures sent { IfOk result (λ _. polls.new ≡ with_sent polls.old (message, tt)) }
    ensures refused { IfErr result (λ fault. (fault ≡ PeerGone) × (polls.new ≡ polls.old)) }
{
    send_to::<Nothing, ToLedger, R>(polls, rt, message)
}

pub(crate) fn publish<R: Wait>(
    packets: &mut LinkOut<ToBroker>,
    rt: &R,
    message: ToBroker,
) -> Result<(), RunFault>
    requires { FollowsToBroker packets.old.number packets.old.sent (message, tt) }
    ensures sent { IfOk result (λ _. packets.new ≡ with_sent packets.old (message, tt)) }
    ensures refused { IfErr result (λ fault. (fault ≡ PeerGone) × (packets.new ≡ packets.old)) }
{
    send_to::<Nothing, ToBroker, R>(packets, rt, message)
}

/// Receives the next message, from the ledger or from the broker.
pub(crate) fn receive<R: Wait>(
    inbox: &mut LinkIn<ToConnector>,
    rt: &R,
) -> Result<ToConnector, RunFault>
    ensures taken { IfOk result (λ message. Takes FollowsToConnector inbox.old message inbox.new) }
    ensures refused { IfErr result (λ fault. (fault ≡ PeerGone) × (inbox.new ≡ inbox.old)) }
{
    receive_from(inbox, rt)
}

/// Receives the next message if there is one, and never waits.
pub(crate) fn receive_ready<R: Wait>(
    inbox: &mut LinkIn<ToConnector>,
    rt: &R,
) -> Result<Option<ToConnector>, RunFault>
    ensures taken { IfOk result (λ ready. TakesIfSome FollowsToConnector inbox.old ready inbox.new) }
    ensures refused { IfErr result (λ fault. (fault ≡ PeerGone) × (inbox.new ≡ inbox.old)) }
{
    receive_ready_from(inbox, rt)
}
