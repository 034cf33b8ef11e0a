//! What a connector works with: its session and its store, what it asks the ledger for, and what it publishes.

ghost use Rattle.std.specs.Prelude.{◌≡◌, ◌≤◌, ◌+◌, ◌==◌, ◌&&◌, IfErr, IfOk, Some, false, length};
ghost use Rattle.cdc_connector_actor.specs.Connector.{ConnectorCore as Core, IsConnectorActor, IsPublishing, IsTurnOf, IsWorkingTurn, first_connector};
ghost use Rattle.cdc_publisher.specs.Stands.{SessionStands};
ghost use Rattle.cdc_connector_actor.specs.Connector.Moves.{AreReceived, AreSent, HasCome, IsAdvanced, IsAnswerTaken, IsBegun, IsConfirmTaken, IsFollowed, IsReceivedIf, IsReplyReceived, IsPacketSent, IsReplyTaken, IsSending, IsSentNext, asked_if, finished_if, wanted_by};
ghost use Rattle.cdc_connector_actor.specs.Connector.Fails.{IsConfirmFailed, IsCutShort, IsNotBegun, IsUnfinished, IsUnsaved, IsUnsent};
ghost use Rattle.cdc_connector_actor.specs.Connector.SoFar.{HasFailed};
ghost use Rattle.cdc_actor_work.specs.declared.faults.RunFault.TheVariants.{PeerGone};
ghost use Rattle.cdc_message.specs.declared.packets.Answer.TheVariants.{Confirmed, Broken};
ghost use Rattle.cdc_publisher.specs.Courses.{Course, is_done, next_packet, with_confirm};
ghost use Rattle.cdc_publisher.specs.Offers.{IsOffered};
ghost use Rattle.cdc_types.specs.Windows.{IsWindow};

use crate::connector::links::{publish, receive, receive_ready, send_message};
use crate::connector::rules::{count_publish, first_base, is_due, is_open, is_own};
use cdc_actor_work::{Place, RunFault, Turns, Work};
use cdc_links::{LinkIn, LinkOut};
use cdc_message::{Answer, Confirm, Packet};
use cdc_progress::ProgressStore;
use cdc_publisher::Session;
use cdc_traffic::{Poll, PollReply, ToBroker, ToConnector, ToLedger};
use cdc_types::EventTimestamp;
use std::alloc::Global;
use std::marker::Model;
use std::sync::Wait;

/// A connector's endpoints; its store; the timestamp that its first session is to start after; its session, if one
/// runs, with how many polls that has sent and the open one; how many packets are without an answer; after which
/// publish packets it restarts, and how many it has sent; and whether it has finished.
pub struct ConnectorCore<S: ProgressStore> {
    inbox: LinkIn<ToConnector>,
    polls: LinkOut<ToLedger>,
    packets: LinkOut<ToBroker>,
    store: S,
    start: Option<EventTimestamp>,
    first: Option<u64>,
    session: Option<Session>,
    asked: u64,
    poll: Option<Poll>,
    unanswered: usize,
    window: usize,
    restart_after: Vec<u64>,
    published: u64,
    finished: bool,
}

// Written by hand, so that dropping one calls this function and doesn't take it apart again.
impl<S: ProgressStore + Drop> Drop for ConnectorCore<S> {
    fn drop(self) {
        let Self {
            inbox: _,
            polls: _,
            packets: _,
            store: _,
            start: _,
            first: _,
            session: _,
            asked: _,
            poll: _,
            unanswered: _,
            window: _,
            restart_after: _,
            published: _,
            finished: _,
        } = self;
    }
}

impl<S: ProgressStore> Model for ConnectorCore<S> {
    ghost use Rattle.cdc_connector_actor.specs.Connector.{ConnectorCore};

    ghost Value = { ConnectorCore };

    ghost view = { λ c. record {
      inbox = c.inbox;
      polls = c.polls;
      packets = c.packets;
      start = c.start;
      first = c.first;
      held = S.held c.store;
      honest = S.is_honest c.store;
      risks = S.risks c.store;
      session = c.session;
      asked = c.asked;
      poll = c.poll;
      unanswered = c.unanswered;
      window = c.window;
      restarts = c.restart_after.items;
      published = c.published;
      finished = c.finished;
    } };
}

/// What a finished connector actor leaves behind.
#[derive(Drop)]
pub struct ConnectorParts<S: ProgressStore> {
    pub inbox: LinkIn<ToConnector>,
    pub polls: LinkOut<ToLedger>,
    pub packets: LinkOut<ToBroker>,
    /// Holds the progress of the last session.
    pub store: S,
}

impl<S: ProgressStore> ConnectorCore<S> {
    /// How many publish packets were sent, over all sessions.
    pub fn published(&self) -> u64
        ensures { result ≡ self.now.published }
    {
        self.published
    }

    pub fn new(
        inbox: LinkIn<ToConnector>,
        polls: LinkOut<ToLedger>,
        packets: LinkOut<ToBroker>,
        store: S,
        start: Option<EventTimestamp>,
        window: usize,
        restart_after: Vec<u64>,
    ) -> ConnectorCore<S>
        ensures { result ≡ first_connector inbox polls packets (S.held store) (S.is_honest store)
            (S.risks store) start window restart_after.items }
    {
        ConnectorCore {
            inbox,
            polls,
            packets,
            store,
            start,
            first: None,
            session: None,
            asked: 0,
            poll: None,
            unanswered: 0,
            window,
            restart_after,
            published: 0,
            finished: false,
        }
    }

    /// Starts the next session in the place of the one that runs, if one does.
    fn begin(&mut self, alloc: Global) -> Result<(), RunFault>
        requires { IsWindow self.old.window }
        ensures after { IfOk result (λ _. IsBegun self.old self.new) }
        ensures failed { IfErr result (λ fault. IsNotBegun self.old fault self.new) }
    {
        let session = Session::start(alloc, &mut self.store, self.window, self.start)?;
        self.start = None;
        self.first = Some(first_base(self.first, &session));
        self.session = Some(session);
        self.asked = 0;
        self.poll = None;
        Ok(())
    }

    /// Sends the session's next packet. Returns whether there was one.
    fn send_packet<R: Wait>(&mut self, rt: &R, alloc: Global) -> Result<bool, RunFault>
        requires sending { IsSending self.old }
        requires room { self.old.unanswered ≤ self.old.window }
        ensures after { (course : Course) → IsPublishing self.old (Some course)
            → IfOk result (λ sent. IsPacketSent self.old course (next_packet course) sent self.new) }
        ensures failed { (course : Course) → IsPublishing self.old (Some course)
            → IfErr result (λ fault. IsUnsent self.old course fault self.new) }
    {
        let Some(session) = &mut self.session else {
            return Ok(false);
        };
        let Some(packet) = session.next_packet(alloc)? else {
            return Ok(false);
        };
        let Some(published) = count_publish(self.published, &packet) else {
            return Err(RunFault::PeerGone);
        };
        publish(&mut self.packets, rt, ToBroker::Packet(packet))?;
        self.unanswered += 1;
        self.published = published;
        Ok(true)
    }

    /// Sends the next packet, and restarts if the plan has a restart after it. Returns whether there was one.
    fn send_next<R: Wait>(&mut self, rt: &R, alloc: Global) -> Result<bool, RunFault>
        requires sending { IsSending self.old }
        requires room { self.old.unanswered ≤ self.old.window }
        ensures after { IfOk result (λ sent. IsSentNext self.old sent self.new) }
        ensures failed { IfErr result (λ fault. IsCutShort self.old fault self.new) }
    {
        let before = self.published;
        if !self.send_packet(rt, alloc)? {
            return Ok(false);
        }
        if is_due(&self.restart_after, before, self.published) {
            self.begin(alloc)?;
        }
        Ok(true)
    }

    /// Sends packets while there is one, and room for it.
    fn send_packets<R: Wait>(&mut self, rt: &R, alloc: Global) -> Result<(), RunFault>
        requires { IsSending self.old }
        ensures after { IfOk result (λ _. AreSent self.old self.new) }
        ensures failed { IfErr result (λ fault. IsCutShort self.old fault self.new) }
    {
        while self.unanswered <= self.window {
            if !self.send_next(rt, alloc)? {
                return Ok(());
            }
        }
        Ok(())
    }

    /// Polls for what the session wants, if no poll is open.
    fn ask<R: Wait>(&mut self, rt: &R) -> Result<(), RunFault>
        requires { IsSending self.old }
        ensures after { (course : Course) → IsPublishing self.old (Some course)
            → IfOk result (λ _. self.new ≡ asked_if self.old.poll course self.old) }
        ensures failed { IfErr result (λ fault. (fault ≡ PeerGone) × (self.new ≡ self.old)) }
    {
        if self.poll.is_some() {
            return Ok(());
        }
        let Some(session) = &self.session else {
            return Ok(());
        };
        let Some(wanted) = session.wants() else {
            return Ok(());
        };
        let Some(number) = self.asked.checked_add(1) else {
            return Err(RunFault::PeerGone);
        };
        let poll = Poll {
            session: session.number(),
            number,
            after: wanted.after,
            limit: wanted.limit,
        };
        send_message(&mut self.polls, rt, ToLedger::Poll(poll))?;
        self.asked = number;
        self.poll = Some(poll);
        Ok(())
    }

    /// Sends the last messages if the session is done and every packet has its answer.
    fn finish<R: Wait>(&mut self, rt: &R) -> Result<(), RunFault>
        requires { IsSending self.old }
        ensures after { (course : Course) → IsPublishing self.old (Some course)
            → IfOk result (λ _. self.new
            ≡ finished_if (is_done course && (self.old.unanswered == 0)) self.old) }
        ensures failed { IfErr result (λ fault. (fault ≡ PeerGone) × IsUnfinished self.old self.new) }
    {
        let Some(session) = &self.session else {
            return Ok(());
        };
        if !session.done() || self.unanswered != 0 {
            return Ok(());
        }
        send_message(&mut self.polls, rt, ToLedger::Finish)?;
        publish(&mut self.packets, rt, ToBroker::Finish)?;
        self.finished = true;
        Ok(())
    }

    /// Sends all that follows: packets, then a poll, and the last messages if the connector has finished.
    fn follow<R: Wait>(&mut self, rt: &R, alloc: Global) -> Result<(), RunFault>
        requires { IsSending self.old }
        ensures after { IfOk result (λ _. IsFollowed self.old self.new) }
        ensures failed { IfErr result (λ fault. IsCutShort self.old fault self.new) }
    {
        self.send_packets(rt, alloc)?;
        self.ask(rt)?;
        self.finish(rt)
    }

    /// Takes a reply to the open poll. One to another poll changes nothing. Returns whether it was to the open one.
    fn take_reply(&mut self, reply: &PollReply) -> bool
        requires { self.old.poll ≡ Some reply.now.poll
            → IsOffered (wanted_by self.old.session) reply.now.events }
        ensures { IsReplyTaken self.old reply.now result self.new }
    {
        if !is_open(self.poll, reply.poll) {
            return false;
        }
        self.poll = None;
        if let Some(session) = &mut self.session {
            session.offer(reply.events.as_slice(), reply.complete);
        }
        true
    }

    /// The session takes the confirm of a tag. Progress is saved if that moves how far the session has come.
    fn confirm(&mut self, session: u64, tag: u64) -> Result<(), RunFault>
        ensures after { (course : Course) → SessionStands self.old.session (Some course)
            → IfOk result (λ _. IsAnswerTaken self.old course session (Confirmed tag) self.new) }
        ensures failed { (course : Course) → SessionStands self.old.session (Some course)
            → IfErr result (λ fault.
            IsUnsaved self.old (with_confirm session tag course) fault self.new) }
    {
        let Some(running) = &mut self.session else {
            return Ok(());
        };
        let before = running.confirmed();
        running.confirm(session, tag);
        if running.confirmed() != before {
            running.save(&mut self.store)?;
        }
        Ok(())
    }

    /// A packet of a session was lost, or its confirm. If it is the session that runs, the next one starts.
    fn break_off(&mut self, alloc: Global, session: u64) -> Result<(), RunFault>
        requires { IsWindow self.old.window }
        ensures after { (course : Course) → SessionStands self.old.session (Some course)
            → IfOk result (λ _. IsAnswerTaken self.old course session Broken self.new) }
        ensures failed { (course : Course) → SessionStands self.old.session (Some course)
            → IfErr result (λ fault.
            (session ≡ course.number) × IsNotBegun self.old fault self.new) }
    {
        if is_own(&self.session, session) {
            self.begin(alloc)?;
        }
        Ok(())
    }

    /// Takes a confirm. Fails with `PeerGone` if it answers no packet.
    fn take_confirm(&mut self, alloc: Global, confirm: Confirm) -> Result<(), RunFault>
        requires { IsWindow self.old.window }
        ensures after { (course : Course) → SessionStands self.old.session (Some course)
            → IfOk result (λ _. IsConfirmTaken self.old course confirm self.new) }
        ensures failed { (course : Course) → SessionStands self.old.session (Some course)
            → IfErr result (λ fault. IsConfirmFailed self.old course confirm fault self.new) }
    {
        let Some(unanswered) = self.unanswered.checked_sub(1) else {
            return Err(RunFault::PeerGone);
        };
        self.unanswered = unanswered;
        match confirm.answer {
            Answer::Confirmed(tag) => self.confirm(confirm.session, tag),
            Answer::Broken => self.break_off(alloc, confirm.session),
            Answer::Connected | Answer::Ignored => Ok(()),
        }
    }

    /// Takes a message that was just received. Returns whether anything may follow from it: nothing does from a reply
    /// to another poll.
    fn handle(&mut self, alloc: Global, message: ToConnector) -> Result<bool, RunFault>
        requires { (before : Core) × HasCome before message self.old }
        ensures after { (before : Core) → HasCome before message self.old
            → (course : Course) → IsPublishing before (Some course)
            → IfOk result (λ moved. IsReplyReceived before course moved self.new) }
        ensures failed { (before : Core) → HasCome before message self.old
            → IfErr result (λ fault. HasFailed before fault self.new) }
    {
        match message {
            ToConnector::PollReply(reply) => Ok(self.take_reply(&reply)),
            ToConnector::Confirm(confirm) => {
                self.take_confirm(alloc, confirm)?;
                Ok(true)
            }
        }
    }

    /// Receives the next message and takes it. Returns whether anything may follow from it.
    fn receive_next<R: Wait>(&mut self, rt: &R, alloc: Global) -> Result<bool, RunFault>
        requires { IsSending self.old }
        ensures after { (course : Course) → IsPublishing self.old (Some course)
            → IfOk result (λ moved. IsReplyReceived self.old course moved self.new) }
        ensures failed { IfErr result (λ fault. HasFailed self.old fault self.new) }
    {
        let message = receive(&mut self.inbox, rt)?;
        self.handle(alloc, message)
    }

    /// Receives the next message and takes it, if there is one. Returns whether anything may follow from it.
    fn receive_ready<R: Wait>(&mut self, rt: &R, alloc: Global) -> Result<Option<bool>, RunFault>
        requires { IsSending self.old }
        ensures after { (course : Course) → IsPublishing self.old (Some course)
            → IfOk result (λ moved. IsReceivedIf self.old course moved self.new) }
        ensures failed { IfErr result (λ fault. HasFailed self.old fault self.new) }
    {
        let Some(message) = receive_ready(&mut self.inbox, rt)? else {
            return Ok(None);
        };
        let moved = self.handle(alloc, message)?;
        Ok(Some(moved))
    }

    /// Receives the next message, and then up to `more` that are ready. Each is taken before the next one is received.
    /// Returns whether anything may follow from them.
    fn receive_all<R: Wait>(&mut self, rt: &R, alloc: Global, more: usize) -> Result<bool, RunFault>
        requires { IsSending self.old }
        ensures after { (course : Course) → IsPublishing self.old (Some course) → IsTurnOf self.old course
            → IfOk result (λ moved. AreReceived self.old course moved self.new) }
        ensures few { IfOk result (λ _. length self.new.inbox.received
            ≤ length self.old.inbox.received + 1 + more) }
        ensures failed { IfErr result (λ fault. HasFailed self.old fault self.new) }
    {
        let mut moved = self.receive_next(rt, alloc)?;
        for _further in 0..more {
            let Some(also) = self.receive_ready(rt, alloc)? else {
                return Ok(moved);
            };
            moved = moved || also;
        }
        Ok(moved)
    }

    /// Begins the first session if none has begun; otherwise receives messages. Returns whether anything may follow.
    fn advance<R: Wait>(&mut self, rt: &R, alloc: Global, more: usize) -> Result<bool, RunFault>
        requires rest { IsConnectorActor self.old }
        requires working { self.old.finished ≡ false }
        ensures after { IfOk result (λ moved. IsAdvanced self.old moved self.new) }
        ensures few { IfOk result (λ _. length self.new.inbox.received
            ≤ length self.old.inbox.received + 1 + more) }
        ensures failed { IfErr result (λ fault. HasFailed self.old fault self.new) }
    {
        if self.session.is_some() {
            return self.receive_all(rt, alloc, more);
        }
        self.begin(alloc)?;
        Ok(true)
    }

    /// Receives the next message and up to `more` that are ready, and sends what follows from them. The first turn
    /// begins the first session, and only sends.
    fn turn<R: Wait>(&mut self, rt: &R, alloc: Global, more: usize) -> Result<(), RunFault>
        requires kept { IsConnectorActor self.old }
        requires goes_on { self.old.finished ≡ false }
        ensures kept { IfOk result (λ _. IsConnectorActor self.new) }
        ensures turned { IfOk result (λ _. IsWorkingTurn self.old.session self.old self.new) }
        ensures few { IfOk result (λ _. length self.new.inbox.received
            ≤ length self.old.inbox.received + 1 + more) }
        ensures failed { IfErr result (λ fault. HasFailed self.old fault self.new) }
    {
        if !self.advance(rt, alloc, more)? {
            return Ok(());
        }
        self.follow(rt, alloc)
    }
}

impl<S: ProgressStore> Work for ConnectorCore<S> {
    ghost use Rattle.cdc_connector_actor.specs.Connector.{ArePartsOf, IsConnectorActor};
    ghost use Rattle.cdc_connector_actor.specs.Connector.SoFar.{IsFaultOf};
    ghost use Rattle.cdc_connector_actor.specs.Seats.{ConnectorSeat, connector_seat};
    ghost use Rattle.cdc_actor_work.specs.declared.places.Place.TheVariants.{Connector};

    type Parts = ConnectorParts<S>;

    ghost place = { λ _. Connector };

    ghost Seat = { ConnectorSeat };

    ghost seat = { connector_seat };

    ghost keeps = { IsConnectorActor };

    ghost is_over = { λ c. c.finished };

    ghost fails_as = { IsFaultOf };

    ghost leaves = { λ c parts.
        ArePartsOf c parts.inbox parts.polls parts.packets (S.held parts.store) };

    fn place(&self) -> Place {
        Place::Connector
    }

    fn is_over(&self) -> bool {
        self.finished
    }

    fn abort<R: Wait>(&mut self, rt: &R) {
        self.polls.abort(rt);
        self.packets.abort(rt);
    }

    fn into_parts(self) -> ConnectorParts<S> {
        let Self {
            inbox,
            polls,
            packets,
            store,
            start: _,
            first: _,
            session: _,
            asked: _,
            poll: _,
            unanswered: _,
            window: _,
            restart_after: _,
            published: _,
            finished: _,
        } = self;
        ConnectorParts {
            inbox,
            polls,
            packets,
            store,
        }
    }
}

impl<S: ProgressStore> Turns for ConnectorCore<S> {
    ghost use Rattle.cdc_connector_actor.specs.Connector.{IsWorkingTurn};
    ghost use Rattle.cdc_connector_actor.specs.Connector.SoFar.{HasFailed};
    ghost use Rattle.std.specs.Prelude.{length};

    ghost received = { λ c. length c.inbox.received };

    ghost turns = { λ old new. IsWorkingTurn old.session old new };

    ghost fails = { HasFailed };

    fn take_turn<R: Wait>(&mut self, rt: &R, alloc: Global, more: usize) -> Result<(), RunFault> {
        self.turn(rt, alloc, more)
    }
}
