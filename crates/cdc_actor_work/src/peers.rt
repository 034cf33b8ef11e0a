//! What an actor sends its peers and receives from them.

ghost use Rattle.std.specs.Prelude.{◌≡◌, IfErr, IfOk};
ghost use Rattle.cdc_actor_work.specs.declared.faults.RunFault.TheVariants.{PeerGone};
ghost use Rattle.cdc_links.specs.Links.{Takes, TakesIfSome, with_sent};

use crate::faults::RunFault;
use cdc_links::{LinkIn, LinkOut, Message, Naming};
use std::sync::Wait;

/// The name of a message that names nothing.
pub struct Nothing;

impl Naming<()> for Nothing {
    ghost name = { tt };
}

/// Sends a message. If the link refuses it, the peer is gone.
pub fn send_to<K: Naming<M::Name>, M: Message, R: Wait>(
    link: &mut LinkOut<M>,
    rt: &R,
    message: M,
) -> Result<(), RunFault>
    requires { M.may_follow link.old.number link.old.sent (message, K.name) }
    ensures sent { IfOk result (λ _. link.new ≡ with_sent link.old (message, K.name)) }
    ensures refused { IfErr result (λ fault. (fault ≡ PeerGone) × (link.new ≡ link.old)) }
{
    match link.send::<K, R>(rt, message) {
        Ok(()) => Ok(()),
        Err(_) => Err(RunFault::PeerGone),
    }
}

/// Receives the next message. If the link has none and never will, the peers are gone.
pub fn receive_from<M: Message, R: Wait>(link: &mut LinkIn<M>, rt: &R) -> Result<M, RunFault>
    ensures received { IfOk result (λ message. Takes M.may_follow link.old message link.new) }
    ensures refused { IfErr result (λ fault. (fault ≡ PeerGone) × (link.new ≡ link.old)) }
{
    match link.receive(rt) {
        Ok(message) => Ok(message),
        Err(_) => Err(RunFault::PeerGone),
    }
}

/// Receives the next message if there is one, and never waits. If the link never will have one, the peers are gone.
pub fn receive_ready_from<M: Message, R: Wait>(
    link: &mut LinkIn<M>,
    rt: &R,
) -> Result<Option<M>, RunFault>
    ensures received { IfOk result (λ ready. TakesIfSome M.may_follow link.old ready link.new) }
    ensures refused { IfErr result (λ fault. (fault ≡ PeerGone) × (link.new ≡ link.old)) }
{
    match link.receive_ready(rt) {
        Ok(ready) => Ok(ready),
        Err(_) => Err(RunFault::PeerGone),
    }
}
