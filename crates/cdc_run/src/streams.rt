//! The connector, the broker and the subscribers of a run, put together once they have finished.

ghost use Rattle.std.specs.Prelude.{◌≡◌, IfErr, IfOk, map};
ghost use Rattle.std.specs.List.{AllZip};
ghost use Rattle.cdc_broker_actors.specs.Broker.{IsBrokerActor};
ghost use Rattle.cdc_connector_actor.specs.Connector.{ConnectorCore, origin_of};
ghost use Rattle.cdc_ledger_actors.specs.Ledger.{LedgerCore};
ghost use Rattle.cdc_run.specs.SettledLinks.{IsAccounted, IsRefused};
ghost use Rattle.cdc_run.specs.Parts.{works_of};
ghost use Rattle.cdc_run.specs.Streams.{AllCome, AreJoined, AreLeftBy, ArePacketsTo};
ghost use Rattle.cdc_run.specs.SubscriberMail.{AreSubscribersOf, HasFinishedWith};

use crate::laws::passing_laws;
use crate::settled_links::{settle_each, settle_link, settle_pair};
use crate::subscribers::mail_of_subscribers;
use cdc_actors::{Arrival, BrokerEnd, Consumer, RunFault, SubscriberEnd};
use cdc_links::{LinkIn, LinkOut};
use cdc_subscriber::Subscriber;
use cdc_traffic::{ToBroker, ToConnector, ToSubscriber};
use std::alloc::{AllocError, Global};

/// What the subscribers of a run come to, by place.
#[derive(Drop)]
pub(crate) struct Streams {
    pub(crate) subscribers: Vec<Subscriber>,
    /// What each was delivered until it closed.
    pub(crate) deliveries: Vec<Vec<Arrival>>,
}

// The broker's endpoints of the links to its subscribers, by place.
fn links_of(
    alloc: Global,
    consumers: Vec<Consumer>,
) -> Result<Vec<LinkOut<ToSubscriber>>, AllocError>
    ensures { IfOk result (λ links. links.items ≡ map (λ c. c.link) consumers.items) }
{
    let mut links = Vec::new(alloc);
    for consumer in consumers {
        let Consumer {
            link,
            unacked: _,
            delivered: _,
        } = consumer;
        links.push(link)?;
    }
    Ok(links)
}

/// Puts the endpoints of the links to the connector, to the broker and to the subscribers together: the connector's
/// own, the ledger's endpoint of the link to it, the broker actor and the subscribers. `NotOneSystem`: one is of
/// another system, isn't finished, or has met a fault, or there are more or fewer subscribers than the broker has, or
/// in another order.
pub(crate) fn settle_streams(
    alloc: Global,
    system: u64,
    inbox: LinkIn<ToConnector>,
    replies: LinkOut<ToConnector>,
    packets: LinkOut<ToBroker>,
    broker: BrokerEnd,
    subscribers: Vec<SubscriberEnd>,
) -> Result<Streams, RunFault>
    requires { broker.system ≡ system → AreSubscribersOf system 1 subscribers.items
        → AreJoined (record { inbox = inbox; replies = replies; packets = packets })
        broker.work subscribers.items }
    ensures come { IfOk result (λ _. (d : LedgerCore) (c : ConnectorCore)
        → AreLeftBy d c (record { inbox = inbox; replies = replies; packets = packets })
        → AllCome d (origin_of c).start broker.work 0 (works_of subscribers.items)) }
    ensures keeps { IfOk result (λ streams.
        streams.subscribers.items ≡ map (λ s. s.subscriber) (works_of subscribers.items)) }
    ensures deliveries { IfOk result (λ streams. map (λ v. v.items) streams.deliveries.items
        ≡ map (λ s. s.arrivals) (works_of subscribers.items)) }
    ensures received { IfOk result (λ _. AllZip IsAccounted
        (map (λ s. s.inbox) (works_of subscribers.items)) (map (λ c. c.link) broker.work.consumers)) }
    ensures packets { IfOk result (λ _. packets.number ≡ 0 → ArePacketsTo broker.work.inbox packets.sent) }
    ensures core { IfOk result (λ _. IsBrokerActor broker.work) }
    ensures finished { IfOk result (λ _. HasFinishedWith system broker subscribers.items) }
    ensures refused { IfErr result (IsRefused (HasFinishedWith system broker subscribers.items)) }
{
    if broker.system() != system {
        return Err(RunFault::NotOneSystem);
    }
    let Some(parts) = broker.into_parts() else {
        return Err(RunFault::NotOneSystem);
    };
    if subscribers.len() != parts.consumers.len() {
        return Err(RunFault::NotOneSystem);
    }
    let mail = mail_of_subscribers(alloc, system, subscribers)?;
    let links = links_of(alloc, parts.consumers)?;
    passing_laws();
    settle_pair(alloc, inbox, replies, parts.confirms)?;
    settle_link(alloc, parts.inbox, packets, mail.acks)?;
    settle_each(alloc, mail.inboxes, links)?;
    Ok(Streams {
        subscribers: mail.subscribers,
        deliveries: mail.arrivals,
    })
}
