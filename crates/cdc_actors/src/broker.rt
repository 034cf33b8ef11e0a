//! The broker actor: it answers packets and delivers from the queues.

ghost use Rattle.std.specs.Prelude.{◌≡◌, ◌<◌, ◌≤◌, ◌+◌, [], All, IfOk, map, vec_len};
ghost use Rattle.cdc_broker.specs.Broker.{empty_broker};
ghost use Rattle.cdc_broker_actors.specs.Broker.Turns.{IsFreshLink, first_broker};
ghost use Rattle.cdc_actors.specs.Ends.{new_end};

use crate::ends::End;
use cdc_broker_actors::{BrokerCore, BrokerPlan};
use cdc_links::{LinkIn, LinkOut};
use cdc_match::Binding;
use cdc_traffic::{ToBroker, ToConnector, ToSubscriber};
use std::alloc::{AllocError, Global};

/// The broker actor of a run. It answers each packet with one confirm, and delivers each queue to its subscriber
/// while fewer than `prefetch` copies are without an acknowledgement. Its work: what it has received; what it has
/// sent to the connector and to each subscriber, with how many copies that one has yet to acknowledge; the broker;
/// the planned faults, and the counts that these go by; and whether it has finished.
///
/// A turn receives the next message and processes it. Then it delivers from each queue what it may, and once the
/// connector is done and each copy is acknowledged, sends each subscriber its last message. A turn that may receive
/// further messages processes each before it receives the one after; it receives none if the plan repeats deliveries.
/// `PeerGone`: a message was refused by its link, or an acknowledgement isn't due. `OutOfMemory`: a publish was not
/// taken, or a delivery not sent.
pub type BrokerEnd = End<BrokerCore>;

impl BrokerEnd {
    /// The actor of a broker to which nothing has come yet, with a queue for each binding, and a link to the
    /// subscriber of each queue, by place. Fails only if it is out of memory.
    pub fn new(
        alloc: Global,
        system: u64,
        inbox: LinkIn<ToBroker>,
        confirms: LinkOut<ToConnector>,
        links: Vec<LinkOut<ToSubscriber>>,
        bindings: Vec<Binding>,
        prefetch: u64,
        plan: BrokerPlan,
    ) -> Result<BrokerEnd, AllocError>
        requires fresh { inbox.received ≡ [] }
        requires senders { inbox.senders ≡ vec_len links + 1 }
        requires own { confirms.number ≡ 1 }
        requires silent { confirms.sent ≡ [] }
        requires fresh_links { All IsFreshLink links.items }
        requires queues { vec_len bindings ≡ vec_len links }
        requires some { 0 < prefetch }
        requires few { prefetch ≤ 64 }
        ensures { IfOk result (λ end. end ≡ new_end system (first_broker inbox confirms links.items
            (empty_broker bindings.items) plan prefetch)) }
    {
        let work = BrokerCore::new(alloc, inbox, confirms, links, bindings, prefetch, plan)?;
        Ok(End::of(system, work))
    }
}

impl BrokerEnd {
    /// How many publishes have reached it, including those that its plan loses.
    pub fn publishes(&self) -> u64
        ensures { result ≡ self.now.work.publishes }
    {
        self.work.publishes()
    }

    /// How many publishes it has accepted.
    pub fn accepted(&self) -> u64
        ensures { result ≡ self.now.work.accepted }
    {
        self.work.accepted()
    }

    /// How many positions of each queue it has delivered, by place.
    pub fn delivered(&self, alloc: Global) -> Result<Vec<u64>, AllocError>
        ensures { IfOk result (λ delivered. delivered.items
            ≡ map (λ c. c.delivered) self.now.work.consumers) }
    {
        self.work.delivered(alloc)
    }
}
