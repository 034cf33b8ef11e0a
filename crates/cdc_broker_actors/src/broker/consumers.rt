//! What the broker actor keeps of each subscriber, and how a queue is delivered to it.

ghost use Rattle.std.specs.Prelude.{◌≡◌, ◌<◌, ◌≤◌, ◌-◌, ℕ, All, IfErr, IfOk, is_some, length, map};
ghost use Rattle.cdc_broker.specs.Broker.{queue_of};
ghost use Rattle.cdc_broker.specs.Queues.{next_delivery};
ghost use Rattle.cdc_broker_actors.specs.Broker.{as_sent};
ghost use Rattle.cdc_broker_actors.specs.Broker.Turns.{delivered_some, first_consumer, lane_of, with_copy, with_next, with_one_fewer, with_stop};
ghost use Rattle.cdc_broker_actors.specs.Broker.Steps.{HasBecome, MayDeliver, MayStop};
ghost use Rattle.cdc_broker_actors.specs.Broker.Fails.{AreStopping, DeliversSoFar, IsStuck};
ghost use Rattle.cdc_actor_work.specs.Faults.{IsTurnFault};
ghost use Rattle.cdc_actor_work.specs.declared.faults.RunFault.TheVariants.{PeerGone};
ghost use Rattle.cdc_traffic.specs.Following.{FollowsToSubscriber};
ghost use Rattle.cdc_traffic.specs.declared.messages.ToSubscriber.TheVariants.{Stop};

use crate::broker::plans::is_repeated;
use cdc_actor_work::{Nothing, RunFault, send_to};
use cdc_broker::Broker;
use cdc_links::LinkOut;
use cdc_message::Delivery;
use cdc_traffic::ToSubscriber;
use std::alloc::{AllocError, Global};
use std::sync::Wait;

/// A subscriber as the broker actor keeps it.
#[derive(Drop)]
pub struct Consumer {
    pub link: LinkOut<ToSubscriber>,
    /// How many of the copies that it was sent aren't acknowledged yet.
    pub unacked: u64,
    /// The greatest position that it was sent, from 1; 0 if none was.
    pub delivered: u64,
}

impl Consumer {
    fn send_copy<R: Wait>(&mut self, rt: &R, delivery: Delivery) -> Result<(), RunFault>
        requires few { self.old.unacked < 64 }
        requires follows { FollowsToSubscriber self.old.link.number self.old.link.sent
            (as_sent delivery) }
        ensures after { IfOk result (λ _. self.new ≡ with_copy delivery self.old) }
        ensures refused { IfErr result (λ fault.
            (fault ≡ PeerGone) × (self.new.link ≡ self.old.link)) }
    {
        self.delivered = self.delivered.max(delivery.position);
        let message = ToSubscriber::Delivery(delivery);
        send_to::<Nothing, ToSubscriber, R>(&mut self.link, rt, message)?;
        self.unacked += 1;
        Ok(())
    }

    pub(crate) fn send_stop<R: Wait>(&mut self, rt: &R) -> Result<(), RunFault>
        requires { FollowsToSubscriber self.old.link.number self.old.link.sent (Stop, tt) }
        ensures after { IfOk result (λ _. self.new ≡ with_stop self.old) }
        ensures refused { IfErr result (λ fault. (fault ≡ PeerGone) × (self.new ≡ self.old)) }
    {
        send_to::<Nothing, ToSubscriber, R>(&mut self.link, rt, ToSubscriber::Stop)
    }
}

/// A consumer for each link, at its place, which was sent nothing yet.
pub(crate) fn first_consumers(
    alloc: Global,
    links: Vec<LinkOut<ToSubscriber>>,
) -> Result<Vec<Consumer>, AllocError>
    ensures { IfOk result (λ consumers. consumers.items ≡ map first_consumer links.items) }
{
    let mut consumers = Vec::with_capacity(alloc, links.len())?;
    for link in links {
        consumers.push_reserved(Consumer {
            link,
            unacked: 0,
            delivered: 0,
        });
    }
    Ok(consumers)
}

/// Sends the next delivery of a queue, if it has one, and rewinds the queue if the plan has it. Returns whether there
/// was one.
fn deliver_next<R: Wait>(
    rt: &R,
    alloc: Global,
    broker: &mut Broker,
    consumer: &mut Consumer,
    repeat: &[(u64, u64)],
    number: usize,
) -> Result<bool, RunFault>
    requires first { 0 < number }
    requires last { number ≤ length broker.old.queues }
    requires few { consumer.old.unacked < 64 }
    requires may { MayDeliver (lane_of broker.old number consumer.old) }
    ensures more { IfOk result (λ more. more
        ≡ is_some (next_delivery (queue_of broker.old number))) }
    ensures becomes { IfOk result (λ _. HasBecome number
        (with_next repeat.now number (next_delivery (queue_of broker.old number))
        (lane_of broker.old number consumer.old))
        broker.old broker.new consumer.new) }
    ensures failed { IfErr result (λ fault.
        DeliversSoFar number broker.old consumer.old fault broker.new consumer.new) }
    ensures kind { IfErr result IsTurnFault }
{
    let Some(delivery) = broker.next_for(alloc, number)? else {
        return Ok(false);
    };
    let position = delivery.position;
    let first = consumer.delivered < position;
    consumer.send_copy(rt, delivery)?;
    if first && is_repeated(repeat, number as u64, position) {
        broker.rewind(number);
    }
    Ok(true)
}

/// Delivers from a queue while fewer than `prefetch` copies of it are without an acknowledgement.
pub(crate) fn deliver<R: Wait>(
    rt: &R,
    alloc: Global,
    broker: &mut Broker,
    consumer: &mut Consumer,
    repeat: &[(u64, u64)],
    number: usize,
    prefetch: u64,
) -> Result<(), RunFault>
    requires first { 0 < number }
    requires last { number ≤ length broker.old.queues }
    requires few { prefetch ≤ 64 }
    requires may { MayDeliver (lane_of broker.old number consumer.old) }
    ensures after { IfOk result (λ _. HasBecome number
        (delivered_some repeat.now number (prefetch - consumer.old.unacked)
        (lane_of broker.old number consumer.old))
        broker.old broker.new consumer.new) }
    ensures failed { IfErr result (λ fault. IsStuck number prefetch broker.old consumer.old fault
        broker.new consumer.new) }
    ensures kind { IfErr result IsTurnFault }
{
    while consumer.unacked < prefetch {
        if !deliver_next(rt, alloc, broker, consumer, repeat, number)? {
            return Ok(());
        }
    }
    Ok(())
}

/// How many positions of each queue were delivered, by place.
pub(crate) fn delivered_of(alloc: Global, consumers: &[Consumer]) -> Result<Vec<u64>, AllocError>
    ensures { IfOk result (λ delivered. delivered.items ≡ map (λ c. c.delivered) consumers.now) }
{
    let mut delivered = Vec::with_capacity(alloc, consumers.len())?;
    for consumer in consumers {
        delivered.push_reserved(consumer.delivered);
    }
    Ok(delivered)
}

/// Aborts the link to each subscriber.
pub(crate) fn abort_all<R: Wait>(consumers: &mut [Consumer], rt: &R)
    ensures { consumers.new ≡ consumers.old }
{
    for i in 0..consumers.len() {
        let consumer = &mut consumers[i];
        consumer.link.abort(rt);
    }
}

/// Sends each subscriber its last message. If a link refuses, the subscribers before it were sent theirs.
pub(crate) fn stop_all<R: Wait>(consumers: &mut [Consumer], rt: &R) -> Result<(), RunFault>
    requires { All MayStop consumers.old }
    ensures after { IfOk result (λ _. consumers.new ≡ map with_stop consumers.old) }
    ensures failed { IfErr result (λ fault.
        (fault ≡ PeerGone) × AreStopping consumers.old consumers.new) }
    ensures kind { IfErr result IsTurnFault }
{
    for i in 0..consumers.len() {
        let consumer = &mut consumers[i];
        consumer.send_stop(rt)?;
    }
    Ok(())
}
