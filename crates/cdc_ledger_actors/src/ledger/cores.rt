//! What the ledger actor keeps, and what it does with each message.

ghost use Rattle.std.specs.Prelude.{◌≡◌, ◌⊎◌, ℕ, ◌+◌, ◌<◌, ◌≤◌, Option, None, Some, List, [], ◌∷◌, ◌++◌, All, IfErr, IfOk, OnErr, is_some, true, length, vec_len};
ghost use Rattle.cdc_actor_work.specs.Faults.{IsTurnFault};
ghost use Rattle.cdc_ledger_actors.specs.Ledger.{ReceiveReplies, IsBooked, IsLedgerActor, IsLedgerTurn, first_ledger, has_to_wait, links_of, order_of, past_of_inbox, replied_of, kept_of, replies_of, with_replies};
ghost use Rattle.cdc_ledger_actors.specs.Ledger.SoFar.{AnswersSoFar, ComesSoFar, IsUntaken};
ghost use Rattle.cdc_ledger_actors.specs.Ledger.Steps.{IsNext, IsTaken, looked_at, with_one_done};
ghost use Rattle.cdc_ledger_actors.specs.Orders.{past_of, batches_by};
ghost use Rattle.cdc_actor_work.specs.declared.faults.RunFault.TheVariants.{PeerGone};
ghost use Rattle.cdc_links.specs.Links.{CanSend, of_sender, with_sent};
ghost use Rattle.cdc_traffic.specs.Answering.{read_by};
ghost use Rattle.cdc_traffic.specs.Following.{FollowsToClient, FollowsToConnector, FollowsToLedger, last_named};
ghost use Rattle.cdc_traffic.specs.Pasts.{Continues, history_of};
ghost use Rattle.cdc_traffic.specs.declared.messages.ToConnector.TheVariants.{PollReply as OfPoll};

use crate::ledger::reception::{Reception, Under};
use cdc_actor_work::{Place, RunFault, Turns, Work, receive_from, send_to};
use cdc_ledger::Ledger;
use cdc_links::{LinkIn, LinkOut};
use cdc_traffic::{Poll, PollReply, Reply, Request, ToConnector, ToLedger};
use std::alloc::Global;
use std::marker::{Brand, Model};
use std::sync::Wait;

/// What a finished ledger actor leaves behind.
#[derive(Drop)]
pub struct LedgerParts {
    pub inbox: LinkIn<ToLedger>,
    /// In the order of the clients' numbers.
    pub clients: Vec<LinkOut<Reply>>,
    pub connector: LinkOut<ToConnector>,
    /// The ledger, which is closed.
    pub ledger: Ledger,
    /// The client of each batch, in the order in which the ledger took the batches.
    pub order: Vec<u64>,
}

/// The ledger's endpoint of each of its links, the ledger, how many clients aren't done, whether the connector is,
/// the poll that is kept until there is something to reply, and the client of each batch that the ledger took.
pub struct LedgerCore {
    inbox: LinkIn<ToLedger>,
    clients: Vec<LinkOut<Reply>>,
    connector: LinkOut<ToConnector>,
    ledger: Ledger,
    clients_left: usize,
    connector_done: bool,
    kept: Option<Poll>,
    order: Vec<u64>,
}

// Written by hand, so that dropping one calls this function and doesn't take it apart again.
impl Drop for LedgerCore {
    fn drop(self) {
        let Self {
            inbox: _,
            clients: _,
            connector: _,
            ledger: _,
            clients_left: _,
            connector_done: _,
            kept: _,
            order: _,
        } = self;
    }
}

impl Model for LedgerCore {
    ghost use Rattle.cdc_ledger_actors.specs.Ledger.{LedgerCore};

    ghost Value = { LedgerCore };

    ghost view = { λ core. record {
      inbox = core.inbox;
      clients = core.clients.items;
      connector = core.connector;
      ledger = core.ledger;
      clients_left = core.clients_left;
      connector_done = core.connector_done;
      kept = core.kept;
      order = core.order.items;
    } };
}

fn receive_next<R: Wait>(inbox: &mut LinkIn<ToLedger>, rt: &R) -> Result<ToLedger, RunFault>
    ensures next { IfOk result (λ message. IsNext inbox.old message inbox.new) }
    ensures refused { IfErr result (λ fault. (fault ≡ PeerGone) × (inbox.new ≡ inbox.old)) }
    ensures kind { IfErr result IsTurnFault }
    ensures lawful { (j : ℕ) → CanSend FollowsToLedger j (of_sender j inbox.old.received) }
{
    let _count = inbox.received_count();
    receive_from(inbox, rt)
}

fn reply_to_client<K: Reception, R: Wait>(
    client: &mut LinkOut<Reply>,
    rt: &R,
    reply: Reply,
) -> Result<(), RunFault>
    requires { FollowsToClient client.old.number client.old.sent
        (reply, past_of K.order) }
    ensures refused { IfErr result (λ fault. (fault ≡ PeerGone) × (client.new ≡ client.old)) }
    ensures kind { IfErr result IsTurnFault }
    ensures sent { IfOk result (λ _.
        client.new ≡ with_sent client.old (reply, past_of K.order)) }
{
    send_to::<Under<K>, Reply, R>(client, rt, reply)
}

fn reply_to_connector<K: Reception, R: Wait>(
    connector: &mut LinkOut<ToConnector>,
    rt: &R,
    reply: PollReply,
) -> Result<(), RunFault>
    requires { FollowsToConnector connector.old.number connector.old.sent
        (OfPoll reply, Some K.past) }
    ensures refused { IfErr result (λ fault. (fault ≡ PeerGone) × (connector.new ≡ connector.old)) }
    ensures kind { IfErr result IsTurnFault }
    ensures sent { IfOk result (λ _. connector.new
        ≡ with_sent connector.old (OfPoll reply, Some K.past)) }
{
    send_to::<Under<K>, ToConnector, R>(connector, rt, ToConnector::PollReply(reply))
}

// Submits the batch of a request, and replies to its client.
fn answer<K: Reception, R: Wait>(
    clients: &mut [LinkOut<Reply>],
    ledger: &mut Ledger,
    rt: &R,
    alloc: Global,
    request: Request,
) -> Result<(), RunFault>
    requires first { 0 < request.client }
    requires last { request.client ≤ length clients.old }
    requires number { request.number
        ≡ length (batches_by request.client K.order) + 1 }
    requires emitted { ReceiveReplies 1 K.order clients.old }
    requires history { ledger.old ≡ history_of (past_of K.order) }
    ensures emitted { IfOk result (λ _. ReceiveReplies 1
        (K.order ++ (request.client, request.batch) ∷ []) clients.new) }
    ensures history { IfOk result (λ _. ledger.new ≡ history_of
        (past_of (K.order ++ (request.client, request.batch) ∷ []))) }
    ensures links { IfOk result (λ _. links_of clients.new ≡ links_of clients.old) }
    ensures failed { IfErr result (λ fault. AnswersSoFar ledger.old (history_of
        (past_of (K.order ++ (request.client, request.batch) ∷ []))) fault ledger.new) }
    ensures untold { OnErr result (clients.new ≡ clients.old) }
    ensures kind { IfErr result IsTurnFault }
{
    let place = request.client as usize - 1;
    let reply = request.answer(alloc, ledger)?;
    let client = &mut clients[place];
    reply_to_client::<K, R>(client, rt, reply)
}

// Takes a request: submits its batch, replies to its client, and notes the client.
fn take_request<K: Reception, R: Wait>(
    clients: &mut [LinkOut<Reply>],
    ledger: &mut Ledger,
    order: &mut Vec<u64>,
    rt: &R,
    alloc: Global,
    request: Request,
) -> Result<(), RunFault>
    requires first { 0 < request.client }
    requires last { request.client ≤ length clients.old }
    requires number { request.number
        ≡ length (batches_by request.client K.order) + 1 }
    requires emitted { ReceiveReplies 1 K.order clients.old }
    requires history { ledger.old ≡ history_of (past_of K.order) }
    ensures emitted { IfOk result (λ _. ReceiveReplies 1
        (K.order ++ (request.client, request.batch) ∷ []) clients.new) }
    ensures history { IfOk result (λ _. ledger.new ≡ history_of
        (past_of (K.order ++ (request.client, request.batch) ∷ []))) }
    ensures links { IfOk result (λ _. links_of clients.new ≡ links_of clients.old) }
    ensures noted { IfOk result (λ _. order.new.items ≡ order.old.items ++ request.client ∷ []) }
    ensures failed { IfErr result (λ fault. AnswersSoFar ledger.old (history_of
        (past_of (K.order ++ (request.client, request.batch) ∷ []))) fault ledger.new) }
    ensures untold { OnErr result (clients.new ≡ clients.old) }
    ensures unnoted { OnErr result (order.new.items ≡ order.old.items) }
    ensures kind { IfErr result IsTurnFault }
{
    order.reserve(1)?;
    let client = request.client;
    answer::<K, R>(clients, ledger, rt, alloc, request)?;
    order.push_reserved(client);
    Ok(())
}

// Replies to the poll that was kept, from the ledger as it is now.
fn reply_kept<K: Reception, R: Wait>(
    connector: &mut LinkOut<ToConnector>,
    ledger: &Ledger,
    rt: &R,
    alloc: Global,
    kept: Option<Poll>,
) -> Result<(), RunFault>
    requires own { connector.old.number ≡ 0 }
    requires history { ledger.now ≡ history_of K.past }
    requires named { Continues (last_named connector.old.sent) K.past }
    ensures kind { IfErr result IsTurnFault }
    ensures replied { IfOk result (λ _. connector.new
        ≡ with_replies connector.old K.past (replies_of ledger.now kept)) }
    ensures refused { OnErr result (connector.new ≡ connector.old) }
    ensures asked { OnErr result (is_some kept ≡ true) }
{
    match kept {
        Some(poll) => reply_to_connector::<K, R>(connector, rt, poll.read(alloc, ledger)?),
        None => Ok(()),
    }
}

// Replies to a poll, or returns that it has to wait.
fn look<K: Reception, R: Wait>(
    connector: &mut LinkOut<ToConnector>,
    ledger: &Ledger,
    rt: &R,
    alloc: Global,
    poll: Poll,
) -> Result<Option<Poll>, RunFault>
    requires own { connector.old.number ≡ 0 }
    requires history { ledger.now ≡ history_of K.past }
    requires named { Continues (last_named connector.old.sent) K.past }
    ensures replied { IfOk result (λ _. connector.new
        ≡ with_replies connector.old K.past (replied_of ledger.now (Some poll))) }
    ensures refused { OnErr result (connector.new ≡ connector.old) }
    ensures kept { IfOk result (λ kept. kept ≡ kept_of ledger.now (Some poll)) }
    ensures kind { IfErr result IsTurnFault }
{
    let reply = poll.read(alloc, ledger)?;
    if !ledger.closed() && reply.events.as_slice().is_empty() {
        return Ok(Some(poll));
    }
    reply_to_connector::<K, R>(connector, rt, reply)?;
    Ok(None)
}

// Aborts the link to each client.
fn abort_all<R: Wait>(clients: &mut [LinkOut<Reply>], rt: &R)
    ensures { clients.new ≡ clients.old }
{
    for i in 0..clients.len() {
        let client = &mut clients[i];
        client.abort(rt);
    }
}

impl LedgerCore {
    pub fn new(
        alloc: Global,
        inbox: LinkIn<ToLedger>,
        clients: Vec<LinkOut<Reply>>,
        connector: LinkOut<ToConnector>,
    ) -> LedgerCore
        ensures { result ≡ first_ledger inbox clients.items connector }
    {
        LedgerCore {
            inbox,
            clients_left: clients.len(),
            clients,
            connector,
            ledger: Ledger::new(alloc),
            connector_done: false,
            kept: None,
            order: Vec::new(alloc),
        }
    }

    // One more client is done. The last one closes the ledger.
    fn count_done(&mut self)
        requires { 0 < self.old.clients_left }
        ensures { self.new ≡ with_one_done self.old }
    {
        self.clients_left -= 1;
        if self.clients_left == 0 {
            self.ledger.close();
        }
    }

    // Receives and takes a message, and doesn't look at the kept poll yet.
    fn take<K: Reception, R: Wait>(&mut self, rt: &R, alloc: Global) -> Result<(), RunFault>
        requires order { K.order ≡ order_of self.old.inbox.received }
        requires past { K.past ≡ past_of_inbox self.old.inbox }
        requires kept { IsLedgerActor self.old }
        ensures taken { IfOk result (λ _. IsTaken self.old self.new) }
        ensures failed { IfErr result (λ fault. ((fault ≡ PeerGone) × (self.new ≡ self.old))
            ⊎ IsUntaken self.old fault self.new) }
        ensures kind { IfErr result IsTurnFault }
    {
        let message = receive_next(&mut self.inbox, rt)?;
        match message {
            ToLedger::Request(request) => take_request::<K, R>(
                self.clients.as_mut_slice(),
                &mut self.ledger,
                &mut self.order,
                rt,
                alloc,
                request,
            ),
            ToLedger::Done { client: _ } => {
                self.count_done();
                Ok(())
            }
            ToLedger::Poll(poll) => {
                reply_kept::<K, R>(&mut self.connector, &self.ledger, rt, alloc, self.kept)?;
                self.kept = Some(poll);
                Ok(())
            }
            ToLedger::Finish => {
                self.connector_done = true;
                Ok(())
            }
        }
    }

    // Replies to the kept poll if there is something to reply.
    fn look_again<K: Reception, R: Wait>(&mut self, rt: &R, alloc: Global) -> Result<(), RunFault>
        requires past { K.past ≡ past_of_inbox self.old.inbox }
        requires kept { IsBooked self.old }
        ensures looked { IfOk result (λ _. self.new ≡ looked_at self.old) }
        ensures refused { OnErr result (self.new ≡ self.old) }
        ensures asked { OnErr result (is_some self.old.kept ≡ true) }
        ensures kind { IfErr result IsTurnFault }
    {
        if let Some(poll) = self.kept {
            self.kept = look::<K, R>(&mut self.connector, &self.ledger, rt, alloc, poll)?;
        }
        Ok(())
    }

    /// Receives one message, and sends what follows from it.
    fn turn<R: Wait>(&mut self, rt: &R, alloc: Global) -> Result<(), RunFault>
        requires { IsLedgerActor self.old }
        ensures turned { IfOk result (λ _. IsLedgerTurn self.old self.new) }
        ensures failed { IfErr result (λ fault. ComesSoFar self.old fault self.new) }
        ensures kind { IfErr result IsTurnFault }
    {
        self.take::<Brand, R>(rt, alloc)?;
        self.look_again::<Brand, R>(rt, alloc)
    }
}

impl Work for LedgerCore {
    ghost use Rattle.cdc_actor_work.specs.Faults.{IsTurnFault};
    ghost use Rattle.cdc_ledger_actors.specs.Ledger.{ArePartsOf, IsLedgerActor, is_over};
    ghost use Rattle.cdc_ledger_actors.specs.Seats.{LedgerSeat, ledger_seat};
    ghost use Rattle.cdc_actor_work.specs.declared.places.Place.TheVariants.{Ledger};

    type Parts = LedgerParts;

    ghost place = { λ _. Ledger };

    ghost Seat = { LedgerSeat };

    ghost seat = { ledger_seat };

    ghost keeps = { IsLedgerActor };

    ghost is_over = { is_over };

    ghost fails_as = { λ _ fault. IsTurnFault fault };

    ghost leaves = { λ d parts.
        ArePartsOf d parts.inbox parts.clients.items parts.connector parts.ledger parts.order.items };

    fn place(&self) -> Place {
        Place::Ledger
    }

    fn is_over(&self) -> bool {
        self.clients_left == 0 && self.connector_done
    }

    fn abort<R: Wait>(&mut self, rt: &R) {
        abort_all(self.clients.as_mut_slice(), rt);
        self.connector.abort(rt);
    }

    fn into_parts(self) -> LedgerParts {
        let Self {
            inbox,
            clients,
            connector,
            ledger,
            clients_left: _,
            connector_done: _,
            kept: _,
            order,
        } = self;
        LedgerParts {
            inbox,
            clients,
            connector,
            ledger,
            order,
        }
    }
}

impl Turns for LedgerCore {
    ghost use Rattle.cdc_ledger_actors.specs.Ledger.{IsLedgerTurn};
    ghost use Rattle.cdc_ledger_actors.specs.Ledger.SoFar.{HasFailed};
    ghost use Rattle.std.specs.Prelude.{length};

    ghost received = { λ d. length d.inbox.received };

    ghost turns = { IsLedgerTurn };

    ghost fails = { HasFailed };

    fn take_turn<R: Wait>(&mut self, rt: &R, alloc: Global, _more: usize) -> Result<(), RunFault> {
        self.turn(rt, alloc)
    }
}
