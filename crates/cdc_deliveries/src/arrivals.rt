//! What arrives at a subscriber.

ghost use Rattle.std.specs.Prelude.{◌≡◌, ◌∷◌, IfOk, OnOk};
ghost use Rattle.cdc_deliveries.specs.Arrivals.{arrivals, is_closed as is_closed_answer, nothing_sent};
ghost use Rattle.cdc_deliveries.specs.Arrivals.{with_lost, with_own, with_sent, with_taken};

use crate::steps::DeliveryStep;
use cdc_subscriber::Taking;
use cdc_world::ItemName;
use std::alloc::{AllocError, Global};
use std::collections::VecDeque;
use std::marker::Model;

/// A delivery that a subscriber took before its close.
#[derive(Clone, Copy, Debug, PartialEq, Eq)]
pub struct Arrival {
    /// The item's position in its queue, from 1.
    pub position: u64,
    /// Whether the queue had sent this position before it sent this delivery. An earlier one may have been lost.
    pub redelivered: bool,
    pub item: ItemName,
}

/// What arrives at a subscriber while the steps of its deliveries come one after another.
#[derive(Drop)]
struct Arriving {
    /// For each delivery in flight whether the position had been sent before.
    flight: VecDeque<bool>,
    /// The greatest position that the queue has sent; 0 before the first.
    furthest: u64,
    arrived: Vec<Arrival>,
}

impl Model for Arriving {
    ghost use Rattle.cdc_deliveries.specs.Arrivals.{Arriving as State};

    ghost Value = { State };

    ghost view = { λ a. record {
      flight = a.flight.items;
      furthest = a.furthest;
      arrived = a.arrived.items;
    } };
}

/// What arrives at the subscriber of this number, from 1, by these steps: the deliveries that it takes up to its close,
/// in order. An error means out of memory.
pub fn arrivals_of(
    alloc: Global,
    steps: &[DeliveryStep],
    subscriber: u64,
) -> Result<Vec<Arrival>, AllocError>
    ensures { IfOk result (λ arrived. arrived.items ≡ arrivals subscriber steps.now) }
{
    let mut arriving = Arriving::new(alloc);
    for step in steps {
        if step.subscriber() == subscriber {
            arriving.follow(*step)?;
        }
    }
    Ok(arriving.into_arrived())
}

impl Arriving {
    fn new(alloc: Global) -> Arriving
        ensures { result ≡ nothing_sent }
    {
        Arriving {
            flight: VecDeque::new(alloc),
            furthest: 0,
            arrived: Vec::new(alloc),
        }
    }

    /// Goes on to the next step of the subscriber's deliveries.
    fn follow(&mut self, step: DeliveryStep) -> Result<(), AllocError>
        ensures { OnOk result (self.new ≡ with_own self.old step) }
    {
        match step {
            DeliveryStep::Sent { position, .. } => self.send(position),
            DeliveryStep::Lost { .. } => {
                self.flight.clear();
                Ok(())
            }
            DeliveryStep::Taken {
                position,
                item,
                answer,
                ..
            } => self.take(position, item, answer),
        }
    }

    fn send(&mut self, position: u64) -> Result<(), AllocError>
        ensures { OnOk result (self.new ≡ with_sent self.old position) }
    {
        self.flight.push_back(position <= self.furthest)?;
        self.furthest = self.furthest.max(position);
        Ok(())
    }

    fn take(&mut self, position: u64, item: ItemName, answer: Taking) -> Result<(), AllocError>
        ensures { OnOk result (self.new ≡ with_taken self.old self.old.flight position item answer) }
    {
        let Some(redelivered) = self.flight.pop_front() else {
            return Ok(());
        };
        if !is_closed(answer) {
            self.arrived.push(Arrival {
                position,
                redelivered,
                item,
            })?;
        }
        Ok(())
    }

    fn into_arrived(self) -> Vec<Arrival>
        ensures { result.items ≡ self.arrived }
    {
        let Arriving { arrived, .. } = self;
        arrived
    }
}

/// Whether a subscriber that answers so is closed.
pub(crate) fn is_closed(answer: Taking) -> bool
    ensures { result ≡ is_closed_answer answer }
{
    match answer {
        Taking::AfterClose => true,
        Taking::Applied | Taking::Repeat | Taking::Ended => false,
    }
}
