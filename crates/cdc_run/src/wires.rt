//! The links of a run.

ghost use Rattle.std.specs.Prelude.{◌≡◌, ◌+◌, ◌^◌, ◌<◌, IfOk, vec_len};
ghost use Rattle.cdc_links.specs.Links.{fresh_endpoint};
ghost use Rattle.cdc_run.specs.Configs.{Fits};
ghost use Rattle.cdc_run.specs.Wires.{AreOwn, AreWired, IsFresh, fresh_from};

use crate::configs::Config;
use cdc_links::{LinkIn, LinkOut, Message, link};
use cdc_traffic::{Reply, ToBroker, ToConnector, ToLedger, ToSubscriber};
use std::alloc::{AllocError, Global};

/// In the link to the ledger: two polls and the connector's last message.
const LEDGER_ROOM: usize = 3;

/// In the link to a client: one reply.
const CLIENT_ROOM: usize = 1;

/// In the link to the connector: a confirm beyond the window, the replies to two polls, and one message more.
const CONNECTOR_ROOM: usize = 4;

/// In the link to the broker: a packet beyond the window, the connector's last message, and one message more.
const BROKER_ROOM: usize = 3;

/// In the link to a subscriber: the last message.
const SUBSCRIBER_ROOM: usize = 1;

/// All endpoints of a run's links. A list has one for each client or each subscriber, in the order of their numbers.
#[derive(Drop)]
pub(crate) struct Wires {
    pub(crate) to_ledger: LinkIn<ToLedger>,
    pub(crate) polls: LinkOut<ToLedger>,
    /// The clients send requests over these.
    pub(crate) requests: Vec<LinkOut<ToLedger>>,
    /// The ledger sends to the clients over these.
    pub(crate) replies: Vec<LinkOut<Reply>>,
    /// The clients receive replies over these.
    pub(crate) answers: Vec<LinkIn<Reply>>,
    pub(crate) to_connector: LinkIn<ToConnector>,
    /// The ledger answers the connector's polls over this one.
    pub(crate) poll_replies: LinkOut<ToConnector>,
    pub(crate) confirms: LinkOut<ToConnector>,
    pub(crate) to_broker: LinkIn<ToBroker>,
    pub(crate) packets: LinkOut<ToBroker>,
    /// The subscribers send acknowledgements over these.
    pub(crate) acks: Vec<LinkOut<ToBroker>>,
    /// The broker sends deliveries over these.
    pub(crate) deliveries: Vec<LinkOut<ToSubscriber>>,
    /// The subscribers receive deliveries over these.
    pub(crate) inboxes: Vec<LinkIn<ToSubscriber>>,
}

// A link with room for `capacity` messages, with a first sender and so many others.
fn shared<M: Message>(
    alloc: Global,
    capacity: usize,
    others: usize,
) -> Result<(LinkOut<M>, Vec<LinkOut<M>>, LinkIn<M>), AllocError>
    requires capacity { 0 < capacity }
    requires others { others < 2 ^ 32 }
    ensures first { IfOk result (λ ends. ends.0 ≡ fresh_endpoint ends.2.link 0) }
    ensures others { IfOk result (λ ends. ends.1.items ≡ fresh_from ends.2.link 1 others) }
    ensures into { IfOk result (λ ends. IsFresh (others + 1) ends.2) }
{
    let Ok((mut outs, into)) = link::<M>(alloc, capacity, others + 1) else {
        return Err(AllocError);
    };
    let first = outs.remove(0);
    Ok((first, outs, into))
}

// A link with room for `capacity` messages, with one sender.
fn single<M: Message>(alloc: Global, capacity: usize) -> Result<(LinkOut<M>, LinkIn<M>), AllocError>
    requires { 0 < capacity }
    ensures out { IfOk result (λ ends. ends.0 ≡ fresh_endpoint ends.1.link 0) }
    ensures into { IfOk result (λ ends. IsFresh 1 ends.1) }
{
    let (out, _, into) = shared(alloc, capacity, 0)?;
    Ok((out, into))
}

// So many links, each with room for `capacity` messages and with one sender.
fn own<M: Message>(
    alloc: Global,
    capacity: usize,
    count: usize,
) -> Result<(Vec<LinkOut<M>>, Vec<LinkIn<M>>), AllocError>
    requires { 0 < capacity }
    ensures own { IfOk result (λ ends. AreOwn ends.0.items ends.1.items) }
    ensures count { IfOk result (λ ends. vec_len ends.1 ≡ count) }
{
    let mut outs = Vec::with_capacity(alloc, count)?;
    let mut ins = Vec::with_capacity(alloc, count)?;
    while ins.len() < count {
        let (out, into) = single(alloc, capacity)?;
        outs.push_reserved(out);
        ins.push_reserved(into);
    }
    Ok((outs, ins))
}

/// The links of a run, each with room for all messages that its senders can have under way at once, so that none
/// waits for room. The room that doesn't depend on the configuration has a constant for each link. Besides that there
/// is room in the link to the ledger for a message of each client, in that to the connector for `window` confirms, in
/// that to the broker for `window` packets and `prefetch` acknowledgements of each subscriber, and in that to a
/// subscriber for `prefetch` deliveries.
pub(crate) fn make_wires(alloc: Global, config: &Config) -> Result<Wires, AllocError>
    requires { Fits config.now }
    ensures { IfOk result (λ all. AreWired config.now.clients (vec_len config.now.bindings) all) }
{
    let clients = config.clients as usize;
    let subscribers = config.bindings.len();
    let prefetch = config.prefetch as usize;
    let in_flight = config.window + BROKER_ROOM + subscribers * prefetch;
    let (polls, requests, to_ledger) = shared(alloc, clients + LEDGER_ROOM, clients)?;
    let (poll_replies, confirms, to_connector) = pair(alloc, config.window + CONNECTOR_ROOM)?;
    let (packets, acks, to_broker) = shared(alloc, in_flight, subscribers)?;
    let (replies, answers) = own(alloc, CLIENT_ROOM, clients)?;
    let (deliveries, inboxes) = own(alloc, prefetch + SUBSCRIBER_ROOM, subscribers)?;
    Ok(Wires {
        to_ledger,
        polls,
        requests,
        replies,
        answers,
        to_connector,
        poll_replies,
        confirms,
        to_broker,
        packets,
        acks,
        deliveries,
        inboxes,
    })
}

// A link with room for `capacity` messages, with two senders.
fn pair<M: Message>(
    alloc: Global,
    capacity: usize,
) -> Result<(LinkOut<M>, LinkOut<M>, LinkIn<M>), AllocError>
    requires { 0 < capacity }
    ensures first { IfOk result (λ ends. ends.0 ≡ fresh_endpoint ends.2.link 0) }
    ensures second { IfOk result (λ ends. ends.1 ≡ fresh_endpoint ends.2.link 1) }
    ensures into { IfOk result (λ ends. IsFresh 2 ends.2) }
{
    let (first, mut others, into) = shared(alloc, capacity, 1)?;
    let second = others.remove(0);
    Ok((first, second, into))
}
