//! The messages of each link except a client's, whose messages are replies.

use crate::pasts::Past;
use crate::polls::{Poll, PollReply};
use crate::requests::Request;
use cdc_links::Message;
use cdc_message::{Confirm, Delivery, Packet};

/// A message over the link to the ledger: from the connector, whose endpoint has the number 0, or from a client,
/// whose endpoint has the client's number.
#[derive(Drop)]
pub enum ToLedger {
    /// A client submits a batch.
    Request(Request),
    /// A client's last message.
    Done {
        /// The client's number, from 1.
        client: u64,
    },
    /// The connector asks for events.
    Poll(Poll),
    /// The connector's last message.
    Finish,
}

impl Message for ToLedger {
    ghost use Rattle.cdc_traffic.specs.Following.{FollowsToLedger};

    type Name = ();

    ghost may_follow = { FollowsToLedger };
}

/// A message over the link to the connector: from the ledger, whose endpoint has the number 0, or from the broker,
/// whose endpoint has the number 1.
#[derive(Drop)]
pub enum ToConnector {
    /// The ledger's answer to a poll.
    PollReply(PollReply),
    /// The broker's answer to a packet.
    Confirm(Confirm),
}

impl Message for ToConnector {
    ghost use Rattle.cdc_traffic.specs.Following.{FollowsToConnector};

    type Name = Option<Past>;

    ghost may_follow = { FollowsToConnector };
}

/// A subscriber's acknowledgement that it took a delivery.
#[derive(Clone, Copy, Debug, PartialEq, Eq)]
pub struct Ack {
    /// The subscriber's number, from 1.
    pub subscriber: u64,
    /// The position that was taken, from 1.
    pub position: u64,
}

/// A message over the link to the broker: from the connector, whose endpoint has the number 0, or from a subscriber,
/// whose endpoint has the subscriber's number.
#[derive(Drop)]
pub enum ToBroker {
    /// The connector publishes a packet.
    Packet(Packet),
    /// The connector's last message.
    Finish,
    /// A subscriber acknowledges a delivery.
    Ack(Ack),
}

impl Message for ToBroker {
    ghost use Rattle.cdc_traffic.specs.Following.{FollowsToBroker};

    type Name = ();

    ghost may_follow = { FollowsToBroker };
}

/// A message over the link from the broker to a subscriber.
#[derive(Drop)]
pub enum ToSubscriber {
    /// The subscriber's queue delivers an item.
    Delivery(Delivery),
    /// The broker's last message.
    Stop,
}

impl Message for ToSubscriber {
    ghost use Rattle.cdc_traffic.specs.Following.{FollowsToSubscriber};

    type Name = ();

    ghost may_follow = { FollowsToSubscriber };
}
