//! The client actor's core: its state, and how it sends a batch and receives the reply.

ghost use Rattle.std.specs.Prelude.{◌≡◌, ◌↔◌, IfErr, IfOk, IsTrue, false};
ghost use Rattle.cdc_ledger_actors.specs.Client.{IsAnswered, IsClient, IsReplyReceived, finished_client, first_client};
ghost use Rattle.cdc_actor_work.specs.Faults.{IsTurnFault};
ghost use Rattle.cdc_ledger_actors.specs.Client.SoFar.{AsksSoFar};
ghost use Rattle.cdc_actor_work.specs.declared.faults.RunFault.TheVariants.{PeerGone};
ghost use Rattle.cdc_links.specs.Links.{with_sent};
ghost use Rattle.cdc_traffic.specs.Following.{FollowsToLedger};

use crate::client::same::same_batch;
use cdc_actor_work::{Nothing, Numbered, Place, RunFault, Work, receive_from, send_to};
use cdc_links::{LinkIn, LinkOut};
use cdc_traffic::{Reply, Request, ToLedger};
use cdc_types::Batch;
use std::alloc::Global;
use std::marker::Model;
use std::sync::Wait;

/// A client's number, its endpoints, a copy of each reply, and whether it has reported that it is done.
pub struct ClientCore {
    number: u64,
    requests: LinkOut<ToLedger>,
    answers: LinkIn<Reply>,
    replies: Vec<Reply>,
    finished: bool,
}

// Written by hand, so that dropping one calls this function and doesn't take it apart again.
impl Drop for ClientCore {
    fn drop(self) {
        let Self {
            number: _,
            requests: _,
            answers: _,
            replies: _,
            finished: _,
        } = self;
    }
}

impl Model for ClientCore {
    ghost use Rattle.cdc_ledger_actors.specs.Client.{ClientCore};

    ghost Value = { ClientCore };

    ghost view = { λ talk. record {
      number = talk.number;
      requests = talk.requests;
      answers = talk.answers;
      replies = talk.replies.items;
      finished = talk.finished;
    } };
}

/// What a finished client actor leaves behind.
#[derive(Drop)]
pub struct ClientParts {
    pub requests: LinkOut<ToLedger>,
    pub answers: LinkIn<Reply>,
    /// Copies, in the order of the requests.
    pub replies: Vec<Reply>,
}

fn send_message<R: Wait>(
    requests: &mut LinkOut<ToLedger>,
    rt: &R,
    message: ToLedger,
) -> Result<(), RunFault>
    requires { FollowsToLedger requests.old.number requests.old.sent (message, tt) }
    ensures sent { IfOk result (λ _. requests.new ≡ with_sent requests.old (message, tt)) }
    ensures refused { IfErr result (λ fault. (fault ≡ PeerGone) × (requests.new ≡ requests.old)) }
{
    send_to::<Nothing, ToLedger, R>(requests, rt, message)
}

fn receive_next<R: Wait>(answers: &mut LinkIn<Reply>, rt: &R) -> Result<Reply, RunFault>
    ensures reception { IfOk result (λ reply. IsReplyReceived answers.old reply answers.new) }
    ensures refused { IfErr result (λ fault. (fault ≡ PeerGone) × (answers.new ≡ answers.old)) }
{
    receive_from(answers, rt)
}

fn is_to(reply: &Reply, number: u64, batch: &Batch) -> bool
    ensures { IsTrue result ↔ ((reply.now.number ≡ number) × (reply.now.batch ≡ batch.now)) }
{
    reply.number == number && same_batch(&reply.batch, batch)
}

impl ClientCore {
    pub fn new(
        alloc: Global,
        number: u64,
        requests: LinkOut<ToLedger>,
        answers: LinkIn<Reply>,
    ) -> ClientCore
        ensures { result ≡ first_client number requests answers }
    {
        ClientCore {
            number,
            requests,
            answers,
            replies: Vec::new(alloc),
            finished: false,
        }
    }

    /// Sends a batch, and waits for the reply to it.
    pub fn ask<R: Wait>(&mut self, rt: &R, alloc: Global, batch: Batch) -> Result<Reply, RunFault>
        requires kept { IsClient self.old }
        requires talks { self.old.finished ≡ false }
        ensures answered { IfOk result (λ reply. IsAnswered self.old batch reply self.new) }
        ensures talks { self.new.finished ≡ self.old.finished }
        ensures failed { IfErr result (λ fault. AsksSoFar batch self.old fault self.new) }
        ensures kind { IfErr result IsTurnFault }
    {
        let copy = batch.try_copy(alloc)?;
        self.replies.reserve(1)?;
        let Some(number) = self.requests.sent_count().checked_add(1) else {
            return Err(RunFault::PeerGone);
        };
        let request = ToLedger::Request(Request {
            client: self.number,
            number,
            batch,
        });
        send_message(&mut self.requests, rt, request)?;
        let reply = receive_next(&mut self.answers, rt)?;
        if !is_to(&reply, number, &copy) {
            return Err(RunFault::PeerGone);
        }
        self.replies.push_reserved(reply.try_copy(alloc)?);
        Ok(reply)
    }

    /// Reports that the client is done, unless it has done so.
    pub fn end<R: Wait>(&mut self, rt: &R) -> Result<(), RunFault>
        requires { IsClient self.old }
        ensures ended { IfOk result (λ _. self.new ≡ finished_client self.old) }
        ensures failed { IfErr result (λ fault. (fault ≡ PeerGone) × (self.new ≡ self.old)) }
        ensures kind { IfErr result IsTurnFault }
    {
        if self.finished {
            return Ok(());
        }
        let client = self.number;
        send_message(&mut self.requests, rt, ToLedger::Done { client })?;
        self.finished = true;
        Ok(())
    }
}

impl Work for ClientCore {
    ghost use Rattle.cdc_ledger_actors.specs.Client.{ArePartsOf, IsClient};
    ghost use Rattle.cdc_actor_work.specs.Faults.{IsTurnFault};
    ghost use Rattle.cdc_ledger_actors.specs.Seats.{ClientSeat, client_seat};
    ghost use Rattle.cdc_actor_work.specs.declared.places.Place.TheVariants.{Client};

    type Parts = ClientParts;

    ghost place = { λ c. Client c.number };

    ghost Seat = { ClientSeat };

    ghost seat = { client_seat };

    ghost keeps = { IsClient };

    ghost is_over = { λ c. c.finished };

    ghost fails_as = { λ _ fault. IsTurnFault fault };

    ghost leaves = { λ c parts. ArePartsOf c parts.requests parts.answers parts.replies.items };

    fn place(&self) -> Place {
        Place::Client(self.number)
    }

    fn is_over(&self) -> bool {
        self.finished
    }

    fn abort<R: Wait>(&mut self, rt: &R) {
        self.requests.abort(rt);
    }

    fn into_parts(self) -> ClientParts {
        let Self {
            number: _,
            requests,
            answers,
            replies,
            finished: _,
        } = self;
        ClientParts {
            requests,
            answers,
            replies,
        }
    }
}

impl Numbered for ClientCore {
    ghost number = { λ c. c.number };

    fn number(&self) -> u64 {
        self.number
    }
}
