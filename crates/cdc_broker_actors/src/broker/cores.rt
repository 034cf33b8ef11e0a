//! The broker actor's core: its state, and what it does in a turn.

ghost use Rattle.std.specs.Prelude.{◌≡◌, ◌<◌, ◌≤◌, ◌+◌, IfErr, IfOk, false, length, map};
ghost use Rattle.cdc_broker.specs.Broker.{empty_broker};
ghost use Rattle.cdc_broker_actors.specs.Broker.Steps.{HasCome, HasReceivedIf, HasTaken};
ghost use Rattle.cdc_broker_actors.specs.Broker.{IsBrokerActor, IsBrokerCore, is_over};
ghost use Rattle.cdc_broker_actors.specs.Broker.Fails.{IsCutOff, IsUnanswered, IsUnpublished};
ghost use Rattle.cdc_broker_actors.specs.Broker.SoFar.{HasFailed};
ghost use Rattle.cdc_broker_actors.specs.Broker.Turns.{ArePartsOf, HasReceivedAll, HasReceivedNext, HasTurned, MayAck, all_served, first_broker, stopped, with_ack, with_coming, with_served};
ghost use Rattle.cdc_actor_work.specs.Faults.{IsTurnFault};
ghost use Rattle.cdc_actor_work.specs.declared.faults.RunFault.TheVariants.{PeerGone};
ghost use Rattle.cdc_message.specs.declared.packets.Packet.TheVariants.{Connect as ConnectOf, Publish as PublishOf};
ghost use Rattle.cdc_traffic.specs.Following.{IsPacket};
ghost use Rattle.cdc_types.specs.Widths.{max_64};

use crate::broker::consumers::{
    Consumer, abort_all, deliver, delivered_of, first_consumers, stop_all,
};
use crate::broker::links::{confirm, receive, receive_ready};
use crate::broker::plans::BrokerPlan;
use crate::stories::{Fate, Story};
use cdc_actor_work::{Noted, Place, RunFault, Turns, Work};
use cdc_broker::{Broker, Taken};
use cdc_links::{LinkIn, LinkOut};
use cdc_match::Binding;
use cdc_message::{Answer, Item, Packet};
use cdc_traffic::{Ack, ToBroker, ToConnector, ToSubscriber};
use std::alloc::{AllocError, Global};
use std::marker::Model;
use std::mem;
use std::sync::Wait;

/// What a finished broker actor leaves behind.
#[derive(Drop)]
pub struct BrokerParts {
    pub inbox: LinkIn<ToBroker>,
    pub confirms: LinkOut<ToConnector>,
    /// One for each queue, at the queue's place.
    pub consumers: Vec<Consumer>,
    pub broker: Broker,
}

/// The state of the broker actor.
pub struct BrokerCore {
    inbox: LinkIn<ToBroker>,
    confirms: LinkOut<ToConnector>,
    /// One for each queue, at the queue's place.
    consumers: Vec<Consumer>,
    broker: Broker,
    /// The planned faults.
    plan: BrokerPlan,
    /// The limit of copies of a queue without an acknowledgement, from 1 to 64.
    prefetch: u64,
    /// How many publishes have reached it, including lost ones.
    publishes: u64,
    accepted: u64,
    /// Whether the connector has sent its last message.
    connector_done: bool,
    /// Whether each subscriber was sent its last message.
    finished: bool,
    /// A trace of what it saw. No contract mentions it.
    story: Story,
}

// Written by hand, so that dropping one calls this function and doesn't take it apart again.
impl Drop for BrokerCore {
    fn drop(self) {
        let Self {
            inbox: _,
            confirms: _,
            consumers: _,
            broker: _,
            plan: _,
            prefetch: _,
            publishes: _,
            accepted: _,
            connector_done: _,
            finished: _,
            story: _,
        } = self;
    }
}

impl Model for BrokerCore {
    ghost use Rattle.cdc_broker_actors.specs.Broker.{BrokerCore};

    ghost Value = { BrokerCore };

    ghost view = { λ c. record {
      inbox = c.inbox;
      confirms = c.confirms;
      consumers = c.consumers.items;
      broker = c.broker;
      plan = c.plan;
      prefetch = c.prefetch;
      publishes = c.publishes;
      accepted = c.accepted;
      connector_done = c.connector_done;
      finished = c.finished;
    } };
}

// Fails with `PeerGone` at the greatest number.
fn one_more(count: u64) -> Result<u64, RunFault>
    ensures after { IfOk result (λ next. next ≡ count + 1) }
    ensures full { IfErr result (λ fault. (fault ≡ PeerGone) × (count ≡ max_64)) }
{
    match count.checked_add(1) {
        Some(next) => Ok(next),
        None => Err(RunFault::PeerGone),
    }
}

impl BrokerCore {
    /// How many publishes have come, including lost ones.
    pub fn publishes(&self) -> u64
        ensures { result ≡ self.now.publishes }
    {
        self.publishes
    }

    pub fn accepted(&self) -> u64
        ensures { result ≡ self.now.accepted }
    {
        self.accepted
    }

    /// How many positions of each queue were delivered, by place. Fails if it is out of memory.
    pub fn delivered(&self, alloc: Global) -> Result<Vec<u64>, AllocError>
        ensures { IfOk result (λ delivered. delivered.items
            ≡ map (λ c. c.delivered) self.now.consumers) }
    {
        delivered_of(alloc, self.consumers.as_slice())
    }

    pub fn new(
        alloc: Global,
        inbox: LinkIn<ToBroker>,
        confirms: LinkOut<ToConnector>,
        links: Vec<LinkOut<ToSubscriber>>,
        bindings: Vec<Binding>,
        prefetch: u64,
        plan: BrokerPlan,
    ) -> Result<BrokerCore, AllocError>
        ensures { IfOk result (λ core. core
            ≡ first_broker inbox confirms links.items (empty_broker bindings.items) plan prefetch) }
    {
        Ok(BrokerCore {
            inbox,
            confirms,
            consumers: first_consumers(alloc, links)?,
            broker: Broker::new(alloc, bindings)?,
            plan,
            prefetch,
            publishes: 0,
            accepted: 0,
            connector_done: false,
            finished: false,
            story: Story::new(alloc),
        })
    }

    /// Connects a session, or ignores it.
    fn connect(&mut self, session: u64) -> Answer
        ensures { HasCome (ConnectOf session) self.old result self.new }
    {
        if self.broker.connect(session) {
            Answer::Connected
        } else {
            Answer::Ignored
        }
    }

    /// Takes or ignores a publish that isn't lost.
    fn publish(
        &mut self,
        alloc: Global,
        session: u64,
        tag: u64,
        item: Item,
    ) -> Result<Answer, RunFault>
        ensures after { IfOk result (λ answer.
            HasCome (PublishOf session tag item) self.old answer self.new) }
        ensures failed { IfErr result (λ fault.
            IsUnpublished self.old fault self.new) }
        ensures kind { IfErr result IsTurnFault }
    {
        let accepted = one_more(self.accepted)?;
        match self.broker.publish(alloc, session, tag, item)? {
            Taken::Accepted => {
                self.accepted = accepted;
                if self.plan.loses_confirm(self.accepted) {
                    Ok(Answer::Broken)
                } else {
                    Ok(Answer::Confirmed(tag))
                }
            }
            Taken::Ignored(_) => Ok(Answer::Ignored),
        }
    }

    /// Takes, ignores or loses a publish, and answers it.
    fn take_publish<R: Wait>(
        &mut self,
        rt: &R,
        alloc: Global,
        session: u64,
        tag: u64,
        item: Item,
    ) -> Result<(), RunFault>
        requires own { self.old.confirms.number ≡ 1 }
        requires is_one { IsPacket (PublishOf session tag item) }
        ensures after { IfOk result (λ _. self.new
            ≡ with_coming (PublishOf session tag item) self.old) }
        ensures failed { IfErr result (λ fault.
            IsUnanswered (PublishOf session tag item) self.old fault self.new) }
    {
        self.publishes = one_more(self.publishes)?;
        self.story.receive_next(alloc, session, &item);
        let answer = if self.plan.loses_publish(self.publishes) {
            self.story.validate(alloc, session, tag, Fate::Lost);
            Answer::Broken
        } else {
            let answer = self.publish(alloc, session, tag, item)?;
            self.story.validate(alloc, session, tag, Fate::of(answer));
            answer
        };
        confirm(&mut self.confirms, rt, session, answer)
    }

    /// Takes, ignores or loses a packet, and answers it.
    fn take_packet<R: Wait>(
        &mut self,
        rt: &R,
        alloc: Global,
        packet: Packet,
    ) -> Result<(), RunFault>
        requires own { self.old.confirms.number ≡ 1 }
        requires is_one { IsPacket packet }
        ensures after { IfOk result (λ _.
            self.new ≡ with_coming packet self.old) }
        ensures failed { IfErr result (λ fault.
            IsUnanswered packet self.old fault self.new) }
    {
        match packet {
            Packet::Connect { session } => {
                let answer = self.connect(session);
                confirm(&mut self.confirms, rt, session, answer)
            }
            Packet::Publish { session, tag, item } => {
                self.take_publish(rt, alloc, session, tag, item)
            }
        }
    }

    /// A subscriber acknowledges a position of its queue. If the position wasn't delivered, or no copy is without an
    /// acknowledgement, the fault is `PeerGone`.
    fn take_ack(&mut self, ack: Ack) -> Result<(), RunFault>
        requires first { 0 < ack.subscriber }
        requires last { ack.subscriber ≤ length self.old.consumers }
        requires queues { length self.old.broker.queues ≡ length self.old.consumers }
        ensures may { IfOk result (λ _. MayAck ack self.old) }
        ensures after { IfOk result (λ _. self.new ≡ with_ack ack self.old) }
        ensures refused { IfErr result (λ fault.
            (fault ≡ PeerGone) × (self.new ≡ self.old)) }
    {
        let number = ack.subscriber as usize;
        let consumer = &mut self.consumers[number - 1];
        if consumer.unacked == 0 || !self.broker.ack(number, ack.position) {
            return Err(RunFault::PeerGone);
        }
        consumer.unacked -= 1;
        Ok(())
    }

    /// Handles a message that was just received.
    fn handle<R: Wait>(&mut self, rt: &R, alloc: Global, message: ToBroker) -> Result<(), RunFault>
        requires { (before : BrokerCore) × HasTaken before message self.old }
        ensures after { (before : BrokerCore) → HasTaken before message self.old
            → IfOk result (λ _. HasReceivedNext before self.new) }
        ensures failed { (before : BrokerCore) → HasTaken before message self.old
            → IfErr result (λ fault. HasFailed before fault self.new) }
    {
        match message {
            ToBroker::Packet(packet) => self.take_packet(rt, alloc, packet),
            ToBroker::Finish => {
                self.connector_done = true;
                Ok(())
            }
            ToBroker::Ack(ack) => self.take_ack(ack),
        }
    }

    /// Receives the next message and handles it.
    fn receive_next<R: Wait>(&mut self, rt: &R, alloc: Global) -> Result<(), RunFault>
        requires { IsBrokerCore self.old }
        ensures after { IfOk result (λ _. HasReceivedNext self.old self.new) }
        ensures failed { IfErr result (λ fault.
            HasFailed self.old fault self.new) }
    {
        let message = receive(&mut self.inbox, rt)?;
        self.handle(rt, alloc, message)
    }

    /// Receives the next message and handles it, if there is one. Returns whether there was one.
    fn receive_ready<R: Wait>(&mut self, rt: &R, alloc: Global) -> Result<bool, RunFault>
        requires { IsBrokerCore self.old }
        ensures after { IfOk result (λ some. HasReceivedIf some self.old self.new) }
        ensures failed { IfErr result (λ fault.
            HasFailed self.old fault self.new) }
    {
        let Some(message) = receive_ready(&mut self.inbox, rt)? else {
            return Ok(false);
        };
        self.handle(rt, alloc, message)?;
        Ok(true)
    }

    /// Receives the next message, and then up to `more` that are ready. Each is handled before the next one is
    /// received. If the plan repeats deliveries, it takes one message: a later one could acknowledge what is about to
    /// be repeated.
    fn receive_all<R: Wait>(&mut self, rt: &R, alloc: Global, more: usize) -> Result<(), RunFault>
        requires core { IsBrokerCore self.old }
        requires goes_on { self.old.finished ≡ false }
        ensures after { IfOk result (λ _. HasReceivedAll self.old self.new) }
        ensures few { IfOk result (λ _. length self.new.inbox.received
            ≤ length self.old.inbox.received + 1 + more) }
        ensures failed { IfErr result (λ fault.
            HasFailed self.old fault self.new) }
    {
        self.receive_next(rt, alloc)?;
        if !self.plan.repeat.is_empty() {
            return Ok(());
        }
        for _further in 0..more {
            if !self.receive_ready(rt, alloc)? {
                return Ok(());
            }
        }
        Ok(())
    }

    /// Delivers from the queue at a place while it may.
    fn serve<R: Wait>(&mut self, rt: &R, alloc: Global, place: usize) -> Result<(), RunFault>
        requires core { IsBrokerCore self.old }
        requires goes_on { self.old.finished ≡ false }
        requires inside { place < length self.old.consumers }
        ensures after { IfOk result (λ _. self.new ≡ with_served place self.old) }
        ensures failed { IfErr result (λ fault.
            IsCutOff self.old fault self.new) }
        ensures kind { IfErr result IsTurnFault }
    {
        let repeat = self.plan.repeat.as_slice();
        let consumer = &mut self.consumers[place];
        deliver(
            rt,
            alloc,
            &mut self.broker,
            consumer,
            repeat,
            place + 1,
            self.prefetch,
        )?;
        Ok(())
    }

    /// How many queues there are, one for each subscriber.
    fn queues(&self) -> usize
        ensures { result ≡ length self.now.consumers }
    {
        self.consumers.len()
    }

    /// Delivers from each queue while it may, in order.
    fn serve_all<R: Wait>(&mut self, rt: &R, alloc: Global) -> Result<(), RunFault>
        requires core { IsBrokerCore self.old }
        requires goes_on { self.old.finished ≡ false }
        ensures after { IfOk result (λ _. self.new
            ≡ all_served (length self.old.consumers) self.old) }
        ensures failed { IfErr result (λ fault.
            IsCutOff self.old fault self.new) }
        ensures kind { IfErr result IsTurnFault }
    {
        for place in 0..self.queues() {
            self.serve(rt, alloc, place)?;
        }
        Ok(())
    }

    fn is_drained(&self) -> bool
        ensures { result ≡ is_over self.now }
    {
        self.connector_done
            && self
                .consumers
                .as_slice()
                .iter()
                .all(|consumer| consumer.unacked == 0)
    }

    /// If all is over, sends each subscriber its last message.
    fn stop<R: Wait>(&mut self, rt: &R) -> Result<(), RunFault>
        requires core { IsBrokerCore self.old }
        requires goes_on { self.old.finished ≡ false }
        ensures after { IfOk result (λ _. self.new ≡ stopped self.old) }
        ensures failed { IfErr result (λ fault.
            IsCutOff self.old fault self.new) }
        ensures kind { IfErr result IsTurnFault }
    {
        if !self.is_drained() {
            return Ok(());
        }
        stop_all(self.consumers.as_mut_slice(), rt)?;
        self.finished = true;
        Ok(())
    }

    /// One turn: receives the next message and up to `more` that are ready, delivers from each queue while it may, and
    /// sends each subscriber its last message if all is over.
    fn turn<R: Wait>(&mut self, rt: &R, alloc: Global, more: usize) -> Result<(), RunFault>
        requires kept { IsBrokerActor self.old }
        requires goes_on { self.old.finished ≡ false }
        ensures turned { IfOk result (λ _. HasTurned self.old self.new) }
        ensures few { IfOk result (λ _. length self.new.inbox.received
            ≤ length self.old.inbox.received + 1 + more) }
        ensures failed { IfErr result (λ fault.
            HasFailed self.old fault self.new) }
        ensures kind { IfErr result IsTurnFault }
    {
        self.receive_all(rt, alloc, more)?;
        self.serve_all(rt, alloc)?;
        self.stop(rt)?;
        Ok(())
    }
}

impl Work for BrokerCore {
    ghost use Rattle.cdc_broker_actors.specs.Broker.{IsBrokerActor};
    ghost use Rattle.cdc_broker_actors.specs.Broker.Turns.{ArePartsOf};
    ghost use Rattle.cdc_actor_work.specs.Faults.{IsTurnFault};
    ghost use Rattle.cdc_broker_actors.specs.Seats.{BrokerSeat, broker_seat};
    ghost use Rattle.cdc_actor_work.specs.declared.places.Place.TheVariants.{Broker};

    type Parts = BrokerParts;

    ghost place = { λ _. Broker };

    ghost Seat = { BrokerSeat };

    ghost seat = { broker_seat };

    ghost keeps = { IsBrokerActor };

    ghost is_over = { λ d. d.finished };

    ghost fails_as = { λ _ fault. IsTurnFault fault };

    ghost leaves = { λ d parts.
        ArePartsOf d parts.inbox parts.confirms parts.consumers.items parts.broker };

    fn place(&self) -> Place {
        Place::Broker
    }

    fn is_over(&self) -> bool {
        self.finished
    }

    fn abort<R: Wait>(&mut self, rt: &R) {
        self.confirms.abort(rt);
        abort_all(self.consumers.as_mut_slice(), rt);
    }

    fn into_parts(self) -> BrokerParts {
        let Self {
            inbox,
            confirms,
            consumers,
            broker,
            plan: _,
            prefetch: _,
            publishes: _,
            accepted: _,
            connector_done: _,
            finished: _,
            story: _,
        } = self;
        BrokerParts {
            inbox,
            confirms,
            consumers,
            broker,
        }
    }
}

impl Turns for BrokerCore {
    ghost use Rattle.cdc_broker_actors.specs.Broker.SoFar.{HasFailed};
    ghost use Rattle.cdc_broker_actors.specs.Broker.Turns.{HasTurned};
    ghost use Rattle.std.specs.Prelude.{length};

    ghost received = { λ d. length d.inbox.received };

    ghost turns = { HasTurned };

    ghost fails = { HasFailed };

    fn take_turn<R: Wait>(&mut self, rt: &R, alloc: Global, more: usize) -> Result<(), RunFault> {
        self.turn(rt, alloc, more)
    }
}

impl Noted for BrokerCore {
    type Notes = Story;

    fn take_notes(&mut self, alloc: Global) -> Story {
        mem::replace(&mut self.story, Story::new(alloc))
    }
}
