//! Packets and confirms: the messages between the connector and the broker.

ghost use Rattle.std.specs.Prelude.{◌≡◌, IfOk, IsSome, OnErr};
ghost use Rattle.cdc_message.specs.Packets.{packet_event};

use crate::items::Item;
use std::alloc::{AllocError, Global};

/// What the connector sends to the broker.
#[derive(Drop)]
pub enum Packet {
    /// A session starts.
    Connect {
        session: u64,
    },
    /// A session publishes an item.
    Publish {
        session: u64,
        /// The item's position in the session, counted from 1 (RabbitMQ, Publisher Confirms: `delivery-tag`).
        tag: u64,
        item: Item,
    },
}

/// The broker's answer to a packet.
#[derive(Clone, Copy, Debug, PartialEq, Eq)]
pub enum Answer {
    /// The session is now the current one.
    Connected,
    /// The item with this tag was accepted, and is in each queue that takes it (RabbitMQ, Publisher Confirms:
    /// `basic.ack`).
    Confirmed(u64),
    /// The broker didn't take the packet: it changed nothing.
    Ignored,
    /// The packet or its confirm was lost; the session is over.
    Broken,
}

/// What the broker sends back to the connector.
#[derive(Clone, Copy, Debug, PartialEq, Eq)]
pub struct Confirm {
    /// The session that the answer is for.
    pub session: u64,
    pub answer: Answer,
}

impl Packet {
    /// An equal packet in memory of its own. Only copying a message allocates.
    pub fn try_copy(&self, alloc: Global) -> Result<Packet, AllocError>
        ensures copy { IfOk result (λ copy. copy ≡ self.now) }
        ensures memory { OnErr result (IsSome (packet_event self.now)) }
    {
        match self {
            Packet::Connect { session } => Ok(Packet::Connect { session: *session }),
            Packet::Publish { session, tag, item } => Ok(Packet::Publish {
                session: *session,
                tag: *tag,
                item: item.try_copy(alloc)?,
            }),
        }
    }
}
