//! The subscribers of a run, taken apart once they have finished.

ghost use Rattle.std.specs.Prelude.{[], IfErr, IfOk, OnOk};
ghost use Rattle.cdc_run.specs.SettledLinks.{IsRefused};
ghost use Rattle.cdc_run.specs.SubscriberMail.{AreSubscribersOf, HasAllOf, IsLeftBy, IsMoreLeft};

use crate::parts::parts_of;
use cdc_actors::{Arrival, RunFault, SubscriberEnd, SubscriberParts};
use cdc_links::{LinkIn, LinkOut};
use cdc_subscriber::Subscriber;
use cdc_traffic::{ToBroker, ToSubscriber};
use std::alloc::{AllocError, Global};

/// What the subscribers of a run leave behind, by place.
#[derive(Drop)]
pub(crate) struct SubscriberMail {
    pub(crate) acks: Vec<LinkOut<ToBroker>>,
    pub(crate) inboxes: Vec<LinkIn<ToSubscriber>>,
    pub(crate) subscribers: Vec<Subscriber>,
    pub(crate) arrivals: Vec<Vec<Arrival>>,
}

impl SubscriberMail {
    fn new(alloc: Global) -> SubscriberMail
        ensures { HasAllOf [] result }
    {
        SubscriberMail {
            acks: Vec::new(alloc),
            inboxes: Vec::new(alloc),
            subscribers: Vec::new(alloc),
            arrivals: Vec::new(alloc),
        }
    }

    // If memory runs out, nothing is added.
    fn add(&mut self, parts: SubscriberParts) -> Result<(), AllocError>
        ensures { OnOk result (IsMoreLeft self.old parts self.new) }
    {
        self.acks.reserve(1)?;
        self.inboxes.reserve(1)?;
        self.subscribers.reserve(1)?;
        self.arrivals.reserve(1)?;
        let SubscriberParts {
            number: _,
            inbox,
            acks,
            subscriber,
            arrivals,
        } = parts;
        self.acks.push_reserved(acks);
        self.inboxes.push_reserved(inbox);
        self.subscribers.push_reserved(subscriber);
        self.arrivals.push_reserved(arrivals);
        Ok(())
    }

    fn of(alloc: Global, all: Vec<SubscriberParts>) -> Result<SubscriberMail, AllocError>
        ensures { IfOk result (HasAllOf all.items) }
    {
        let mut mail = SubscriberMail::new(alloc);
        for parts in all {
            mail.add(parts)?;
        }
        Ok(mail)
    }
}

/// Takes the subscriber actors of a system apart, all of which must have finished. `NotOneSystem`: one is of another
/// system, doesn't have its place's number, isn't finished, or has met a fault.
pub(crate) fn mail_of_subscribers(
    alloc: Global,
    system: u64,
    subscribers: Vec<SubscriberEnd>,
) -> Result<SubscriberMail, RunFault>
    ensures are { IfOk result (λ _. AreSubscribersOf system 1 subscribers.items) }
    ensures mail { IfOk result (λ mail. IsLeftBy subscribers.items mail) }
    ensures refused { IfErr result (IsRefused (AreSubscribersOf system 1 subscribers.items)) }
{
    let parts = parts_of(alloc, system, subscribers)?;
    let mail = SubscriberMail::of(alloc, parts)?;
    Ok(mail)
}
