//! The actors of a world, and the steps that leave its store alone.

ghost use Rattle.std.specs.Prelude.{◌≡◌, ◌-◌, ◌<◌, ◌≤◌, false, Some, IfOk, length, option_copied, slice_get};
ghost use Rattle.cdc_types.specs.Windows.{IsWindow};
ghost use Rattle.cdc_types.specs.declared.steps.Step.TheVariants.{Ack, Answer, Arrive, Break, Close, CloseLedger, Crash, Poll as PollStep, Publish as PublishStep, Rewind, Send, Submit, Take};
ghost use Rattle.cdc_world.specs.Next.{uses_store};
ghost use Rattle.cdc_world.specs.Parts.{subscription_parts};
ghost use Rattle.cdc_world.specs.Turns.{ActorsMove, empty_actors, place_in};
ghost use Rattle.cdc_world.specs.Worlds.{numbered};

use crate::broker::{deliver, take_in};
use crate::connector::{poll, publish, take_confirm};
use crate::steps::{Did, StepError};
use crate::subscriptions::{Subscription, empty_subscriptions};
use cdc_broker::Broker;
use cdc_ledger::Ledger;
use cdc_match::Binding;
use cdc_message::{Confirm, Packet};
use cdc_publisher::Session;
use cdc_types::{Batch, Step};
use std::alloc::{AllocError, Global};
use std::marker::Model;

/// A ledger; the session of the connector that publishes its events; the broker; and the subscriptions. Packets and
/// confirms that were ever sent stay there, since any of them may come at any time, and more than once.
#[derive(Drop)]
pub(crate) struct Actors {
    ledger: Ledger,
    window: usize,
    session: Option<Session>,
    packets: Vec<Packet>,
    broker: Broker,
    confirms: Vec<Confirm>,
    subscriptions: Vec<Subscription>,
}

impl Model for Actors {
    ghost use Rattle.std.specs.Prelude.{◌≡◌, length, map};
    ghost use Rattle.cdc_types.specs.Windows.{IsWindow};
    ghost use Rattle.cdc_world.specs.Parts.{ActorParts, subscription_parts};

    ghost Value = { ActorParts };

    ghost view = { λ actors. record {
      history = actors.ledger;
      window = actors.window;
      session = actors.session;
      packets = actors.packets.items;
      broker = actors.broker;
      confirms = actors.confirms.items;
      subscriptions = map subscription_parts actors.subscriptions.items;
    } };

    ghost invariant = { λ actors. IsWindow actors.window
        × (length actors.subscriptions.items ≡ length actors.broker.queues) };
}

impl Actors {
    /// Creates actors that have done nothing, with a subscription for each binding.
    pub(crate) fn new(
        alloc: Global,
        bindings: Vec<Binding>,
        window: usize,
    ) -> Result<Actors, AllocError>
        requires { IsWindow window }
        ensures { IfOk result (λ actors. actors ≡ empty_actors bindings.items window) }
    {
        let subscriptions = empty_subscriptions(alloc, bindings.len())?;
        Ok(Actors {
            ledger: Ledger::new(alloc),
            window,
            session: None,
            packets: Vec::new(alloc),
            broker: Broker::new(alloc, bindings)?,
            confirms: Vec::new(alloc),
            subscriptions,
        })
    }

    pub(crate) fn ledger(&self) -> &Ledger
        ensures { result.now ≡ self.now.history }
    {
        &self.ledger
    }

    /// How many events of a session may wait for their confirms at a time.
    pub(crate) fn window(&self) -> usize
        ensures value { result ≡ self.now.window }
        ensures fits { IsWindow result }
    {
        self.window
    }

    /// The connector's session, or `None` while the connector is down.
    pub(crate) fn session(&self) -> Option<&Session>
        ensures { option_copied result ≡ self.now.session }
    {
        self.session.as_ref()
    }

    /// Replaces the connector's session, if there is one, with this one.
    pub(crate) fn begin(&mut self, session: Session)
        ensures { self.new ≡ record self.old { session = Some session } }
    {
        self.session = Some(session);
    }

    /// The packets that were ever sent, in order.
    pub(crate) fn packets(&self) -> &[Packet]
        ensures { result.now ≡ self.now.packets }
    {
        self.packets.as_slice()
    }

    /// The confirms that were ever sent, in order.
    pub(crate) fn confirms(&self) -> &[Confirm]
        ensures { result.now ≡ self.now.confirms }
    {
        self.confirms.as_slice()
    }

    /// The packet that was sent with this number, from 1 on.
    pub(crate) fn packet(&self, k: u64) -> Option<&Packet>
        ensures { option_copied result ≡ numbered self.now.packets k }
    {
        let place = place_of(k, self.packets.len())?;
        Some(&self.packets[place])
    }

    /// The confirm that was sent with this number, from 1 on.
    pub(crate) fn confirm(&self, k: u64) -> Option<&Confirm>
        ensures { option_copied result ≡ numbered self.now.confirms k }
    {
        let place = place_of(k, self.confirms.len())?;
        Some(&self.confirms[place])
    }

    pub(crate) fn broker(&self) -> &Broker
        ensures kept { result.now ≡ self.now.broker }
        ensures count { length result.now.queues ≡ length self.now.subscriptions }
    {
        &self.broker
    }

    pub(crate) fn subscription_count(&self) -> usize
        ensures { result ≡ length self.now.subscriptions }
    {
        self.subscriptions.len()
    }

    /// The subscription with this number, from 1 on.
    pub(crate) fn subscription(&self, i: usize) -> &Subscription
        requires first { 0 < i }
        requires last { i ≤ length self.now.subscriptions }
        ensures { slice_get self.now.subscriptions (i - 1) ≡ Some (subscription_parts result.now) }
    {
        &self.subscriptions[i - 1]
    }

    /// Takes a step that leaves the store alone. One that is refused changes nothing.
    pub(crate) fn step(&mut self, alloc: Global, step: &Step) -> Result<Did, StepError>
        requires { uses_store step.now ≡ false }
        ensures next { ActorsMove self.old step.now result self.new }
    {
        match step {
            Step::Submit(batch) => self.submit(alloc, batch),
            Step::CloseLedger => self.close_ledger(),
            Step::Crash => self.crash(),
            Step::Poll => self.poll(alloc),
            Step::Publish => self.publish(alloc),
            Step::Arrive(k) => self.arrive(alloc, *k),
            Step::Answer(k) => self.answer(*k),
            Step::Send(i) => self.send(alloc, *i),
            Step::Rewind(i) => self.rewind(*i),
            Step::Break(i) => self.break_off(*i),
            Step::Take(i) => self.take(alloc, *i),
            Step::Ack(i, k) => self.ack(*i, *k),
            Step::Close(i) => self.close(*i),
            Step::Start | Step::StartAt(_) | Step::Save => unreachable!(),
        }
    }

    fn submit(&mut self, alloc: Global, batch: &Batch) -> Result<Did, StepError>
        ensures next { ActorsMove self.old (Submit batch.now) result self.new }
    {
        Ok(Did::Submitted(self.ledger.submit(alloc, batch)?))
    }

    fn close_ledger(&mut self) -> Result<Did, StepError>
        ensures next { ActorsMove self.old CloseLedger result self.new }
    {
        self.ledger.close();
        Ok(Did::Done)
    }

    /// The connector crashes and loses its session. Not enabled while the connector is down.
    fn crash(&mut self) -> Result<Did, StepError>
        ensures next { ActorsMove self.old Crash result self.new }
    {
        if self.session.is_none() {
            return Err(StepError::NotEnabled);
        }
        self.session = None;
        Ok(Did::Done)
    }

    /// The session is offered the events of the ledger that it wants.
    fn poll(&mut self, alloc: Global) -> Result<Did, StepError>
        ensures next { ActorsMove self.old PollStep result self.new }
    {
        let Some(session) = &mut self.session else {
            return Err(StepError::NotEnabled);
        };
        poll(alloc, &self.ledger, session)?;
        Ok(Did::Done)
    }

    /// The session sends its next packet.
    fn publish(&mut self, alloc: Global) -> Result<Did, StepError>
        ensures next { ActorsMove self.old PublishStep result self.new }
    {
        let Some(session) = &mut self.session else {
            return Err(StepError::NotEnabled);
        };
        publish(alloc, session, &mut self.packets)?;
        Ok(Did::Done)
    }

    /// The packet that was sent with this number, from 1 on, comes to the broker.
    fn arrive(&mut self, alloc: Global, k: u64) -> Result<Did, StepError>
        ensures next { ActorsMove self.old (Arrive k) result self.new }
    {
        let place = place_of(k, self.packets.len()).ok_or(StepError::NotEnabled)?;
        let packet = &self.packets[place];
        let taken = take_in(alloc, &mut self.broker, &mut self.confirms, packet)?;
        Ok(Did::Arrived(taken))
    }

    /// The confirm that was sent with this number, from 1 on, comes to the session.
    fn answer(&mut self, k: u64) -> Result<Did, StepError>
        ensures next { ActorsMove self.old (Answer k) result self.new }
    {
        let Some(session) = &mut self.session else {
            return Err(StepError::NotEnabled);
        };
        let place = place_of(k, self.confirms.len()).ok_or(StepError::NotEnabled)?;
        Ok(Did::Counted(take_confirm(session, self.confirms[place])))
    }

    /// The queue of a subscriber makes its next delivery.
    fn send(&mut self, alloc: Global, i: u64) -> Result<Did, StepError>
        ensures next { ActorsMove self.old (Send i) result self.new }
    {
        let place = place_of(i, self.subscriptions.len()).ok_or(StepError::NotEnabled)?;
        deliver(
            alloc,
            &mut self.broker,
            place + 1,
            &mut self.subscriptions[place],
        )?;
        Ok(Did::Done)
    }

    /// The queue of a subscriber rewinds to the first position that isn't acknowledged.
    fn rewind(&mut self, i: u64) -> Result<Did, StepError>
        ensures next { ActorsMove self.old (Rewind i) result self.new }
    {
        let place = place_of(i, self.subscriptions.len()).ok_or(StepError::NotEnabled)?;
        self.broker.rewind(place + 1);
        Ok(Did::Done)
    }

    /// What is on its way to a subscriber is lost, and its queue rewinds.
    fn break_off(&mut self, i: u64) -> Result<Did, StepError>
        ensures next { ActorsMove self.old (Break i) result self.new }
    {
        let place = place_of(i, self.subscriptions.len()).ok_or(StepError::NotEnabled)?;
        self.broker.rewind(place + 1);
        self.subscriptions[place].lose_flight();
        Ok(Did::Done)
    }

    /// A subscriber takes the first delivery that is on its way to it.
    fn take(&mut self, alloc: Global, i: u64) -> Result<Did, StepError>
        ensures next { ActorsMove self.old (Take i) result self.new }
    {
        let place = place_of(i, self.subscriptions.len()).ok_or(StepError::NotEnabled)?;
        let subscription = &mut self.subscriptions[place];
        Ok(Did::Took(subscription.take(alloc)?))
    }

    /// The acknowledgement that a subscriber sent with number `k`, from 1 on, comes to its queue.
    fn ack(&mut self, i: u64, k: u64) -> Result<Did, StepError>
        ensures next { ActorsMove self.old (Ack i k) result self.new }
    {
        let place = place_of(i, self.subscriptions.len()).ok_or(StepError::NotEnabled)?;
        let acks = &self.subscriptions[place].acks;
        let ack = place_of(k, acks.len()).ok_or(StepError::NotEnabled)?;
        Ok(Did::Counted(self.broker.ack(place + 1, acks[ack])))
    }

    fn close(&mut self, i: u64) -> Result<Did, StepError>
        ensures next { ActorsMove self.old (Close i) result self.new }
    {
        let place = place_of(i, self.subscriptions.len()).ok_or(StepError::NotEnabled)?;
        self.subscriptions[place].close();
        Ok(Did::Done)
    }
}

/// The place of a number, from 1 on, in a list of `count` elements, if it has one.
fn place_of(number: u64, count: usize) -> Option<usize>
    ensures { result ≡ place_in number count }
{
    let place = number.checked_sub(1)? as usize;
    if place < count { Some(place) } else { None }
}
