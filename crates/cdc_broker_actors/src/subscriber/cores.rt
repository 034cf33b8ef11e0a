//! The subscriber actor's core: its state, and what it does in a turn.

ghost use Rattle.std.specs.Prelude.{◌≡◌, IfErr, IfOk, false, length, min};
ghost use Rattle.cdc_actor_work.specs.Faults.{IsTurnFault};
ghost use Rattle.cdc_broker_actors.specs.Subscriber.{HasReceived, IsBrought, IsSubscriberActor, received_after, is_due, first_subscriber, with_arrival};
ghost use Rattle.cdc_broker_actors.specs.Subscriber.SoFar.{HasFailed};
ghost use Rattle.cdc_actor_work.specs.declared.faults.RunFault.TheVariants.{OutOfMemory, PeerGone};
ghost use Rattle.cdc_links.specs.Links.{with_sent};
ghost use Rattle.cdc_subscriber.specs.Reception.{Reception, applied_of, kept_of};
ghost use Rattle.cdc_traffic.specs.Following.{FollowsToBroker};
ghost use Rattle.cdc_types.specs.Widths.{max_64};

use crate::stories::Repeats;
use crate::subscriber::arrivals::Arrival;
use crate::subscriber::parts::SubscriberParts;
use cdc_actor_work::{
    Noted, Nothing, Numbered, Place, RunFault, Turns, Work, receive_from, send_to,
};
use cdc_links::{LinkIn, LinkOut};
use cdc_message::Delivery;
use cdc_subscriber::Subscriber;
use cdc_traffic::{Ack, ToBroker, ToSubscriber};
use std::alloc::Global;
use std::marker::Model;
use std::mem;
use std::sync::Wait;

/// A subscriber, its number, its endpoints, after how many events it is to close, whether the broker's last message
/// has come, what it was delivered until it closed, and the duplicates that came to it, which no contract mentions.
pub struct SubscriberCore {
    number: u64,
    inbox: LinkIn<ToSubscriber>,
    acks: LinkOut<ToBroker>,
    subscriber: Subscriber,
    close_after: Option<u64>,
    finished: bool,
    arrivals: Vec<Arrival>,
    repeats: Repeats,
}

// Written by hand, so that dropping one calls this function and doesn't take it apart again.
impl Drop for SubscriberCore {
    fn drop(self) {
        let Self {
            number: _,
            inbox: _,
            acks: _,
            subscriber: _,
            close_after: _,
            finished: _,
            arrivals: _,
            repeats: _,
        } = self;
    }
}

impl Model for SubscriberCore {
    ghost use Rattle.cdc_broker_actors.specs.Subscriber.{SubscriberCore};

    ghost Value = { SubscriberCore };

    ghost view = { λ c. record {
      number = c.number;
      inbox = c.inbox;
      acks = c.acks;
      subscriber = c.subscriber;
      close_after = c.close_after;
      finished = c.finished;
      arrivals = c.arrivals.items;
    } };
}

fn receive_next<R: Wait>(inbox: &mut LinkIn<ToSubscriber>, rt: &R) -> Result<ToSubscriber, RunFault>
    ensures brought { IfOk result (λ message. IsBrought inbox.old message inbox.new) }
    ensures refused { IfErr result (λ fault. (fault ≡ PeerGone) × (inbox.new ≡ inbox.old)) }
{
    receive_from(inbox, rt)
}

fn acknowledge<R: Wait>(acks: &mut LinkOut<ToBroker>, rt: &R, ack: Ack) -> Result<(), RunFault>
    requires { FollowsToBroker acks.old.number acks.old.sent (ToBroker.Ack ack, tt) }
    ensures sent { IfOk result (λ _. acks.new ≡ with_sent acks.old (ToBroker.Ack ack, tt)) }
    ensures refused { IfErr result (λ fault. (fault ≡ PeerGone) × (acks.new ≡ acks.old)) }
{
    send_to::<Nothing, ToBroker, R>(acks, rt, ToBroker::Ack(ack))
}

// Whether a subscriber that has applied so many events is to close; 0 never closes it.
fn must_close(close_after: Option<u64>, applied: u64) -> bool
    ensures { (reception : Reception) → applied ≡ min (length (applied_of reception)) max_64
        → result ≡ is_due close_after reception }
{
    match close_after {
        Some(count) => 0 < count && count <= applied,
        None => false,
    }
}

// Takes a delivery, and closes the subscriber if it is due then. The delivery is noted if the subscriber wasn't closed
// before it. Fails only if it is out of memory.
fn take(
    subscriber: &mut Subscriber,
    arrivals: &mut Vec<Arrival>,
    repeats: &mut Repeats,
    alloc: Global,
    delivery: &Delivery,
    close_after: Option<u64>,
) -> Result<(), RunFault>
    ensures reception { (reception : Reception) → subscriber.old ≡ kept_of reception
        → IfOk result (λ _. subscriber.new ≡ kept_of (received_after close_after reception delivery.now)) }
    ensures arrivals { IfOk result (λ _.
        arrivals.new.items ≡ with_arrival subscriber.old.closed delivery.now arrivals.old.items) }
    ensures refused { IfErr result (λ fault. (fault ≡ OutOfMemory) × (subscriber.new ≡ subscriber.old)
        × (arrivals.new.items ≡ arrivals.old.items)) }
{
    arrivals.reserve(1)?;
    let was_closed = subscriber.closed();
    let Ok(taking) = subscriber.take(alloc, delivery) else {
        return Err(RunFault::OutOfMemory);
    };
    if !was_closed {
        arrivals.push_reserved(Arrival::of(delivery));
    }
    repeats.note(alloc, taking, delivery);
    if must_close(close_after, subscriber.applied_count()) {
        subscriber.close();
    }
    Ok(())
}

impl SubscriberCore {
    pub fn new(
        alloc: Global,
        number: u64,
        inbox: LinkIn<ToSubscriber>,
        acks: LinkOut<ToBroker>,
        close_after: Option<u64>,
    ) -> SubscriberCore
        ensures { result ≡ first_subscriber number inbox acks close_after }
    {
        SubscriberCore {
            number,
            inbox,
            acks,
            subscriber: Subscriber::new(alloc),
            close_after,
            finished: false,
            arrivals: Vec::new(alloc),
            repeats: Repeats::new(alloc),
        }
    }

    /// Receives the broker's next message: takes a delivery and acknowledges it, or finishes.
    fn turn<R: Wait>(&mut self, rt: &R, alloc: Global) -> Result<(), RunFault>
        requires kept { IsSubscriberActor self.old }
        requires goes_on { self.old.finished ≡ false }
        ensures turned { IfOk result (λ _. HasReceived self.old self.new) }
        ensures failed { IfErr result (λ fault. HasFailed self.old fault self.new) }
        ensures kind { IfErr result IsTurnFault }
    {
        match receive_next(&mut self.inbox, rt)? {
            ToSubscriber::Delivery(delivery) => {
                take(
                    &mut self.subscriber,
                    &mut self.arrivals,
                    &mut self.repeats,
                    alloc,
                    &delivery,
                    self.close_after,
                )?;
                let ack = Ack {
                    subscriber: self.number,
                    position: delivery.position,
                };
                acknowledge(&mut self.acks, rt, ack)?;
                Ok(())
            }
            ToSubscriber::Stop => {
                self.finished = true;
                Ok(())
            }
        }
    }
}

impl Work for SubscriberCore {
    ghost use Rattle.std.specs.Prelude.{◌≡◌};
    ghost use Rattle.cdc_actor_work.specs.Faults.{IsTurnFault};
    ghost use Rattle.cdc_broker_actors.specs.Seats.{SubscriberSeat, subscriber_seat};
    ghost use Rattle.cdc_broker_actors.specs.Subscriber.{ArePartsOf, IsSubscriberActor};
    ghost use Rattle.cdc_actor_work.specs.declared.places.Place.TheVariants.{Subscriber};

    type Parts = SubscriberParts;

    ghost place = { λ c. Subscriber c.number };

    ghost Seat = { SubscriberSeat };

    ghost seat = { subscriber_seat };

    ghost keeps = { IsSubscriberActor };

    ghost is_over = { λ c. c.finished };

    ghost fails_as = { λ _ fault. IsTurnFault fault };

    ghost leaves = { ArePartsOf };

    fn place(&self) -> Place {
        Place::Subscriber(self.number)
    }

    fn is_over(&self) -> bool {
        self.finished
    }

    fn abort<R: Wait>(&mut self, rt: &R) {
        self.acks.abort(rt);
    }

    fn into_parts(self) -> SubscriberParts {
        let Self {
            number,
            inbox,
            acks,
            subscriber,
            close_after: _,
            finished: _,
            arrivals,
            repeats: _,
        } = self;
        SubscriberParts {
            number,
            inbox,
            acks,
            subscriber,
            arrivals,
        }
    }
}

impl Turns for SubscriberCore {
    ghost use Rattle.cdc_broker_actors.specs.Subscriber.{HasReceived};
    ghost use Rattle.cdc_broker_actors.specs.Subscriber.SoFar.{HasFailed};
    ghost use Rattle.std.specs.Prelude.{length};

    ghost received = { λ c. length c.inbox.received };

    ghost turns = { HasReceived };

    ghost fails = { HasFailed };

    fn take_turn<R: Wait>(&mut self, rt: &R, alloc: Global, _more: usize) -> Result<(), RunFault> {
        self.turn(rt, alloc)
    }
}

impl Numbered for SubscriberCore {
    ghost number = { λ c. c.number };

    fn number(&self) -> u64 {
        self.number
    }
}

impl Noted for SubscriberCore {
    type Notes = Repeats;

    fn take_notes(&mut self, alloc: Global) -> Repeats {
        mem::replace(&mut self.repeats, Repeats::new(alloc))
    }
}
