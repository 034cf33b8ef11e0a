//! A client actor: it sends requests, one at a time, and keeps a copy of each reply.

ghost use Rattle.std.specs.Prelude.{◌≡◌, ◌<◌, Err, IfErr, IfOk, None, OnErr, Some, [], false};
ghost use Rattle.cdc_ledger_actors.specs.Client.SoFar.{AsksSoFar};
ghost use Rattle.cdc_actors.specs.Replied.{IsReplied};
ghost use Rattle.cdc_ledger_actors.specs.Client.{IsClient, finished_client, first_client};
ghost use Rattle.cdc_actors.specs.Ends.{new_end};
ghost use Rattle.cdc_actor_work.specs.Faults.{IsTurnFault};
ghost use Rattle.cdc_ledger_actors.specs.Seats.{client_seat};
ghost use Rattle.cdc_actor_work.specs.declared.faults.RunFault.{RunFault};

use crate::ends::{End, come_to};
use cdc_actor_work::RunFault;
use cdc_ledger_actors::ClientCore;
use cdc_links::{LinkIn, LinkOut};
use cdc_traffic::{Reply, ToLedger};
use cdc_types::Batch;
use std::alloc::Global;
use std::sync::Wait;

/// A client actor of a run. Its work is its core: the client's number, what it has sent and received, a copy of each
/// reply, and whether it has reported that it is done.
pub type ClientEnd = End<ClientCore>;

impl ClientEnd {
    /// A client actor that has sent nothing yet. Its endpoint of the link to the ledger has the client's number.
    pub fn new(
        alloc: Global,
        system: u64,
        number: u64,
        requests: LinkOut<ToLedger>,
        answers: LinkIn<Reply>,
    ) -> ClientEnd
        requires first { 0 < number }
        requires own { requests.number ≡ number }
        requires silent { requests.sent ≡ [] }
        requires fresh { answers.received ≡ [] }
        requires alone { answers.senders ≡ 1 }
        ensures { result ≡ new_end system (first_client number requests answers) }
    {
        End::of(system, ClientCore::new(alloc, number, requests, answers))
    }

    /// Sends a batch, and waits for the reply to it, of which a copy is kept. `PeerGone`: a link refused to send or
    /// to receive, or the reply wasn't one to this batch. `OutOfMemory`: there was no memory for a copy. The first
    /// fault stays: every later call returns it.
    pub fn submit<R: Wait>(
        &mut self,
        rt: &R,
        alloc: Global,
        batch: Batch,
    ) -> Result<Reply, RunFault>
        requires { self.old.work.finished ≡ false }
        ensures reply { IfOk result (λ reply. IsReplied self.old batch reply self.new) }
        ensures talks { self.new.work.finished ≡ self.old.work.finished }
        ensures system { self.new.system ≡ self.old.system }
        ensures seat { client_seat self.new.work ≡ client_seat self.old.work }
        ensures failed { self.old.fault ≡ None → IfErr result (λ fault.
            AsksSoFar batch self.old.work fault self.new.work × IsClient self.old.work) }
        ensures fault { IfErr result (λ fault. self.new.fault ≡ Some fault) }
        ensures kind { IfErr result IsTurnFault }
        ensures again { (fault : RunFault) → self.old.fault ≡ Some fault
            → (result ≡ Err fault) × (self.new ≡ self.old) }
    {
        if let Some(fault) = self.fault {
            return Err(fault);
        }
        let outcome = self.work.ask(rt, alloc, batch);
        come_to(&mut self.work, &mut self.fault, rt, outcome)
    }

    /// Reports to the ledger that this client is done. A second call changes nothing. `PeerGone`: the link refused to
    /// send. The first fault stays: every later call returns it.
    pub fn finish<R: Wait>(&mut self, rt: &R) -> Result<(), RunFault>
        ensures done { IfOk result (λ _.
            self.new ≡ record self.old { work = finished_client self.old.work }) }
        ensures kept { IfOk result (λ _. IsClient self.new.work) }
        ensures system { self.new.system ≡ self.old.system }
        ensures failed { OnErr result (self.new.work ≡ self.old.work) }
        ensures fault { IfErr result (λ fault. self.new.fault ≡ Some fault) }
        ensures kind { IfErr result IsTurnFault }
        ensures again { (fault : RunFault) → self.old.fault ≡ Some fault
            → (result ≡ Err fault) × (self.new ≡ self.old) }
    {
        if let Some(fault) = self.fault {
            return Err(fault);
        }
        let outcome = self.work.end(rt);
        come_to(&mut self.work, &mut self.fault, rt, outcome)
    }
}
