//! The world itself.

ghost use Rattle.std.specs.Prelude.{◌≡◌, ◌-◌, ◌<◌, ◌≤◌, ℕ, Some, IfOk, IfErr, IsTrue, OnOk, Err, length, map, option_copied, slice_get};
ghost use Rattle.cdc_broker.specs.Packets.{current_session, expected_tag};
ghost use Rattle.cdc_laws.specs.Faithful.{IsFaithful, kept_from};
ghost use Rattle.cdc_progress.specs.Stores.{IsRisked, MayRefuseLoad};
ghost use Rattle.cdc_subscriber.specs.Reception.{kept_of};
ghost use Rattle.cdc_types.specs.Windows.{IsWindow};
ghost use Rattle.cdc_types.specs.declared.steps.Step.TheVariants.{Save};
ghost use Rattle.cdc_world.specs.Moved.{did_of};
ghost use Rattle.cdc_world.specs.Moves.{IsPlayCounted, IsStoreCounted, Moves, MovesReported, PlayFixesClosed, PlayFixesClosedBy, Plays, PlaysBy, SavesSafely, StepFixesClosed};
ghost use Rattle.cdc_world.specs.Next.{IsReached, start_after};
ghost use Rattle.cdc_world.specs.Stands.{Stands, queue_for, view_of};
ghost use Rattle.cdc_publisher.specs.Stands.{SessionStands};
ghost use Rattle.cdc_world.specs.Tries.{IsPlayCountedPast, IsStoreCountedPast, MovesPast, NextPast, is_passing};
ghost use Rattle.cdc_world.specs.Worlds.{Subscription, WorldState, new_world, numbered, start_of, taken_items};

use crate::actors::Actors;
use crate::moved::Moved;
use crate::steps::{Did, StepError};
use cdc_broker::Broker;
use cdc_ledger::Ledger;
use cdc_match::Binding;
use cdc_message::{Confirm, Delivery, Packet};
use cdc_progress::{Progress, ProgressStore, StoreError};
use cdc_publisher::Session;
use cdc_subscriber::Subscriber;
use cdc_types::{EventTimestamp, Step};
use std::alloc::{AllocError, Global};
use std::marker::Model;

/// The outcome of a play.
#[derive(Clone, Copy, Debug, PartialEq, Eq)]
pub struct Played {
    /// How many steps were done before the first refused one.
    pub done: usize,
    /// Why the step after them was refused; `None` if all steps were done.
    pub refusal: Option<StepError>,
}

/// A ledger; the connector that publishes its events, with its session and its progress store; the broker; and the
/// subscribers, each with a queue. Whatever was sent, a packet, a confirm or an acknowledgement, may come late, more
/// than once, or not at all.
///
/// A world keeps only what is still to be used, so contracts refer to the states of all actors: whatever state the
/// world represents before a step, it represents one after it that the step may leave.
#[derive(Drop)]
pub struct World<S: ProgressStore> {
    actors: Actors,
    store: S,
}

impl<S: ProgressStore> Model for World<S> {
    ghost use Rattle.cdc_world.specs.Parts.{Parts};

    ghost Value = { Parts };

    ghost view = { λ world. record {
      actors = world.actors;
      held = S.held world.store;
      honest = S.is_honest world.store;
      failed = S.failed world.store;
      risks = S.risks world.store;
    } };
}

// Whether a step with this answer may succeed at a further try: the store failed, or memory ran out.
fn is_passing(answer: &Result<Did, StepError>) -> bool
    ensures { result ≡ is_passing answer.now }
{
    matches!(answer, Err(StepError::Store(_) | StepError::OutOfMemory))
}

impl<S: ProgressStore + Drop> World<S> {
    /// Creates a world in which nothing has happened, with a subscriber for each binding. At most `window` events of
    /// a session wait for their confirms at a time.
    pub fn new(
        alloc: Global,
        bindings: Vec<Binding>,
        window: usize,
        store: S,
    ) -> Result<World<S>, AllocError>
        requires { IsWindow window }
        ensures stands { IfOk result
            (λ world. Stands world (new_world bindings.items window (S.held store))) }
        ensures honest { IfOk result (λ world. world.honest ≡ S.is_honest store) }
        ensures risks { IfOk result (λ world. world.risks ≡ S.risks store) }
    {
        Ok(World {
            actors: Actors::new(alloc, bindings, window)?,
            store,
        })
    }
}

impl<S: ProgressStore> World<S> {
    /// Takes one step. A step that is refused changes nothing, with two exceptions: the store counts a read or a
    /// write that fails, and a store that fails to save may hold the new record. No step changes what a closed
    /// subscriber has received, and so what it has applied.
    pub fn step(&mut self, alloc: Global, step: &Step) -> Result<Did, StepError>
        ensures next { Moves self.old step.now result self.new }
        ensures fixed { StepFixesClosed self.old step.now result self.new }
        ensures counted { IsStoreCounted self.old.failed self.new.failed result }
        ensures safe { step.now ≡ Save → SavesSafely self.old result }
        ensures honest { self.new.honest ≡ self.old.honest }
        ensures risks { self.new.risks ≡ self.old.risks }
    {
        match step {
            Step::Start => self.start(alloc, None),
            Step::StartAt(time) => self.start(alloc, Some(*time)),
            Step::Save => self.save(),
            _ => self.actors.step(alloc, step),
        }
    }

    /// Takes one step, as `step` does, and also returns what it moved.
    pub fn step_moved(
        &mut self,
        alloc: Global,
        step: &Step,
    ) -> Result<(Did, Option<Moved>), StepError>
        ensures next { MovesReported self.old step.now result self.new }
        ensures fixed { StepFixesClosed self.old step.now (did_of result) self.new }
        ensures counted { IsStoreCounted self.old.failed self.new.failed (did_of result) }
        ensures safe { step.now ≡ Save → SavesSafely self.old (did_of result) }
        ensures honest { self.new.honest ≡ self.old.honest }
        ensures risks { self.new.risks ≡ self.old.risks }
    {
        let leaving = self.leaving(step);
        match self.step(alloc, step) {
            Ok(did) => {
                let moved = leaving.or(self.brought(step, &did));
                Ok((did, moved))
            }
            Err(why) => Err(why),
        }
    }

    /// Takes these steps in order, up to the first that is refused.
    pub fn play(&mut self, alloc: Global, steps: &[Step]) -> Played
        ensures plays { Plays self.old steps.now result.done result.refusal self.new }
        ensures fixed { PlayFixesClosed self.old steps.now result.done result.refusal self.new }
        ensures counted { IsPlayCounted self.old.failed self.new.failed result.refusal }
        ensures honest { self.new.honest ≡ self.old.honest }
        ensures risks { self.new.risks ≡ self.old.risks }
    {
        self.play_past(alloc, steps, 0)
    }

    /// Takes these steps in order, up to the first that is refused. A step that is refused because the store failed
    /// or memory ran out is taken again, at most `tries` times more; the answer of the last try is the step's.
    pub fn play_past(&mut self, alloc: Global, steps: &[Step], tries: usize) -> Played
        ensures plays { PlaysBy (NextPast self.old.risks tries) self.old steps.now result.done
            result.refusal self.new }
        ensures fixed { PlayFixesClosedBy (NextPast self.old.risks tries) self.old steps.now
            result.done result.refusal self.new }
        ensures counted { IsPlayCountedPast tries self.old.failed self.new.failed result.refusal }
        ensures honest { self.new.honest ≡ self.old.honest }
        ensures risks { self.new.risks ≡ self.old.risks }
    {
        for (done, step) in steps.iter().enumerate() {
            if let Err(why) = self.step_past(alloc, step, tries) {
                return Played {
                    done,
                    refusal: Some(why),
                };
            }
        }
        Played {
            done: steps.len(),
            refusal: None,
        }
    }

    pub fn ledger(&self) -> &Ledger
        ensures { (w : WorldState) → Stands self.now w → result.now ≡ w.history }
    {
        self.actors.ledger()
    }

    /// The subscriber with this number, from 1 on. In every world that steps lead to, the events that it has applied
    /// are a prefix of the ledger's events that follow the start and match its binding, and all of them once it has
    /// ended. Its state is determined by these events. If every event matches the binding, its book has exactly their
    /// accounts, with the ledger's balances as of the last one applied.
    pub fn subscriber(&self, i: usize) -> &Subscriber
        requires first { 0 < i }
        requires last { i ≤ length self.now.actors.subscriptions }
        ensures reception { (w : WorldState) → Stands self.now w → (s : Subscription)
            → numbered w.subscriptions i ≡ Some s → result.now ≡ kept_of s.reception }
        ensures applied { (w : WorldState) → Stands self.now w → IsReached w → (s : Subscription)
            → numbered w.subscriptions i ≡ Some s → result.now ≡ kept_from s.reception }
        ensures faithful { (w : WorldState) → Stands self.now w → IsReached w → (s : Subscription)
            → numbered w.subscriptions i ≡ Some s
            → IsFaithful w.history (start_of w) s.binding s.reception }
    {
        &self.actors.subscription(i).subscriber
    }

    pub fn subscriber_count(&self) -> usize
        ensures count { result ≡ length self.now.actors.subscriptions }
        ensures subscriptions { (w : WorldState) → Stands self.now w
            → result ≡ length w.subscriptions }
    {
        self.actors.subscription_count()
    }

    /// The progress that the store holds, or why it doesn't load. A read that fails is counted. If the store is
    /// honest, nothing else changes.
    pub fn progress(&mut self) -> Result<Option<Progress>, StoreError>
        ensures held { IsTrue self.old.honest → (w : WorldState) → Stands self.old w
            → IfOk result (λ held. held ≡ w.held) }
        ensures kept { IsTrue self.old.honest
            → self.new ≡ record self.old { failed = self.new.failed } }
        ensures counted { IfErr result (MayRefuseLoad self.old.failed self.new.failed) }
        ensures uncounted { OnOk result (self.new.failed ≡ self.old.failed) }
        ensures record { IsTrue self.old.honest → ¬ (result ≡ Err StoreError.BadRecord) }
        ensures risked { IfErr result (IsRisked self.old.risks) }
        ensures honest { self.new.honest ≡ self.old.honest }
        ensures risks { self.new.risks ≡ self.old.risks }
    {
        self.store.load()
    }

    /// The connector's session, or `None` while the connector is down.
    pub fn session(&self) -> Option<&Session>
        ensures kept { option_copied result ≡ self.now.actors.session }
        ensures stands { (w : WorldState) → Stands self.now w
            → SessionStands (option_copied result) w.session }
    {
        self.actors.session()
    }

    /// The broker, with a queue for each subscriber.
    pub fn broker(&self) -> &Broker
        ensures kept { result.now ≡ self.now.actors.broker }
        ensures connection { (w : WorldState) → Stands self.now w
            → result.now.connection ≡ current_session w.accepted }
        ensures expected { (w : WorldState) → Stands self.now w
            → result.now.expected ≡ expected_tag w.accepted }
        ensures queues { (w : WorldState) → Stands self.now w
            → map view_of result.now.queues ≡ map (queue_for (taken_items w)) w.subscriptions }
        ensures count { length result.now.queues ≡ length self.now.actors.subscriptions }
    {
        self.actors.broker()
    }

    /// The packet that was sent with this number, from 1 on.
    pub fn packet(&self, k: u64) -> Option<&Packet>
        ensures { (w : WorldState) → Stands self.now w
            → option_copied result ≡ numbered w.packets k }
    {
        self.actors.packet(k)
    }

    /// The confirm that was sent with this number, from 1 on.
    pub fn confirm(&self, k: u64) -> Option<&Confirm>
        ensures { (w : WorldState) → Stands self.now w
            → option_copied result ≡ numbered w.confirms k }
    {
        self.actors.confirm(k)
    }

    /// How many packets were ever sent.
    pub fn packets(&self) -> usize
        ensures { (w : WorldState) → Stands self.now w → result ≡ length w.packets }
    {
        self.actors.packets().len()
    }

    /// How many confirms were ever sent.
    pub fn confirms(&self) -> usize
        ensures { (w : WorldState) → Stands self.now w → result ≡ length w.confirms }
    {
        self.actors.confirms().len()
    }

    /// How many deliveries are on their way to the subscriber with this number, from 1 on.
    pub fn flight(&self, i: usize) -> usize
        requires first { 0 < i }
        requires last { i ≤ length self.now.actors.subscriptions }
        ensures { (w : WorldState) → Stands self.now w → (s : Subscription)
            → numbered w.subscriptions i ≡ Some s → result ≡ length s.flight }
    {
        self.actors.subscription(i).flight.len()
    }

    /// The first of the deliveries on their way to the subscriber with this number, from 1 on.
    pub fn first_in_flight(&self, i: usize) -> Option<&Delivery>
        requires first { 0 < i }
        requires last { i ≤ length self.now.actors.subscriptions }
        ensures { (w : WorldState) → Stands self.now w → (s : Subscription)
            → numbered w.subscriptions i ≡ Some s → option_copied result ≡ slice_get s.flight 0 }
    {
        self.actors.subscription(i).flight.front()
    }

    /// The last of the deliveries on their way to the subscriber with this number, from 1 on.
    pub fn last_in_flight(&self, i: usize) -> Option<&Delivery>
        requires first { 0 < i }
        requires last { i ≤ length self.now.actors.subscriptions }
        ensures { (w : WorldState) → Stands self.now w → (s : Subscription)
            → numbered w.subscriptions i ≡ Some s → option_copied result
            ≡ slice_get s.flight (length s.flight - 1) }
    {
        self.actors.subscription(i).flight.back()
    }

    /// How many positions the subscriber with this number, from 1 on, has acknowledged.
    pub fn acks(&self, i: usize) -> usize
        requires first { 0 < i }
        requires last { i ≤ length self.now.actors.subscriptions }
        ensures { (w : WorldState) → Stands self.now w → (s : Subscription)
            → numbered w.subscriptions i ≡ Some s → result ≡ length s.acks }
    {
        self.actors.subscription(i).acks.len()
    }

    /// Takes one step, and again after each refusal that may pass, at most `tries` times more.
    fn step_past(&mut self, alloc: Global, step: &Step, tries: usize) -> Result<Did, StepError>
        ensures next { MovesPast tries self.old step.now result self.new }
        ensures counted { IsStoreCountedPast tries self.old.failed self.new.failed result }
        ensures honest { self.new.honest ≡ self.old.honest }
        ensures risks { self.new.risks ≡ self.old.risks }
    {
        for _ in 0..tries {
            let answer = self.step(alloc, step);
            if !is_passing(&answer) {
                return answer;
            }
        }
        self.step(alloc, step)
    }

    /// The connector starts a session, after the timestamp `at` if one is given. Not enabled while a session runs.
    fn start(&mut self, alloc: Global, at: Option<EventTimestamp>) -> Result<Did, StepError>
        ensures next { Moves self.old (start_after at) result self.new }
        ensures counted { IsStoreCounted self.old.failed self.new.failed result }
        ensures honest { self.new.honest ≡ self.old.honest }
        ensures risks { self.new.risks ≡ self.old.risks }
    {
        if self.actors.session().is_some() {
            return Err(StepError::NotEnabled);
        }
        let session = Session::start(alloc, &mut self.store, self.actors.window(), at)?;
        self.actors.begin(session);
        Ok(Did::Done)
    }

    /// The session saves its progress. Not enabled while the connector is down.
    fn save(&mut self) -> Result<Did, StepError>
        ensures next { Moves self.old Save result self.new }
        ensures counted { IsStoreCounted self.old.failed self.new.failed result }
        ensures safe { SavesSafely self.old result }
        ensures honest { self.new.honest ≡ self.old.honest }
        ensures risks { self.new.risks ≡ self.old.risks }
    {
        let Some(session) = self.actors.session() else {
            return Err(StepError::NotEnabled);
        };
        session.save(&mut self.store)?;
        Ok(Did::Done)
    }
}
