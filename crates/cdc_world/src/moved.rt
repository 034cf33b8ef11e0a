//! What a step moved, by name: an event by its timestamp, a packet by its number, a delivery by its position.

ghost use Rattle.std.specs.Prelude.{◌≡◌};
ghost use Rattle.cdc_publisher.specs.Courses.{Course};
ghost use Rattle.cdc_publisher.specs.Stands.{StandsFor};
ghost use Rattle.cdc_world.specs.Moved.{confirm_answered, delivery_sent, delivery_taken, events_offered, item_name, packet_name, progress_saved, session_lost, session_started};

use cdc_message::{Answer, Confirm, Delivery, Item, Packet};
use cdc_publisher::Session;

/// An item by name.
#[derive(Clone, Copy, Debug, PartialEq, Eq)]
pub enum ItemName {
    /// The event of this timestamp, in nanoseconds.
    Event(u64),
    /// The end-of-stream marker.
    EndMark,
}

/// A packet by name.
#[derive(Clone, Copy, Debug, PartialEq, Eq)]
pub enum PacketName {
    /// The session of this number connects.
    Connect {
        session: u64,
    },
    /// An item, under its tag of a session.
    Publish {
        session: u64,
        tag: u64,
        item: ItemName,
    },
}

/// What a step sent, took, lost, offered or saved.
#[derive(Clone, Copy)]
pub enum Moved {
    /// The session of this number started. It is offered the events later than `after`.
    SessionStarted {
        session: u64,
        after: u64,
    },
    /// The session of this number was lost.
    SessionLost {
        session: u64,
    },
    /// The session was offered events. `count` are unsent now, all of them new, since a session asks only once it has
    /// sent every event. `first` is the first one's timestamp. `last` is that of the last event ever offered to the
    /// session, or the timestamp that it started after. `complete` is true if no event follows.
    EventsOffered {
        count: usize,
        first: Option<u64>,
        last: u64,
        complete: bool,
    },
    /// The session sent a packet, which has this number from now on.
    PacketSent {
        number: u64,
        packet: PacketName,
    },
    /// The broker took this packet.
    PacketTaken {
        packet: PacketName,
    },
    /// The broker ignored this packet. Its current connection, 0 before the first, and the tag that it takes next are
    /// as they were.
    PacketIgnored {
        packet: PacketName,
        connection: u64,
        next_tag: Option<u64>,
    },
    /// The session `running` received the confirm of a tag that `session` published under.
    ConfirmReceived {
        session: u64,
        tag: u64,
        running: u64,
    },
    /// The store holds that this session is confirmed up to this timestamp.
    ProgressSaved {
        session: u64,
        timestamp: u64,
    },
    /// The queue sent the item at this position.
    DeliverySent {
        position: u64,
        item: ItemName,
    },
    /// The queue rewound to the position after `acked`, up to which all are acknowledged.
    QueueRewound {
        acked: u64,
    },
    /// `count` deliveries were lost in flight, and the queue rewound to the position after `acked`.
    FlightLost {
        count: usize,
        acked: u64,
    },
    /// The subscriber took the item at this position. `Did::Took` has its answer.
    DeliveryTaken {
        position: u64,
        item: ItemName,
    },
    /// All positions of the queue up to `acked` are acknowledged now.
    Acknowledged {
        acked: u64,
    },
}

impl ItemName {
    pub(crate) fn of(item: &Item) -> ItemName
        ensures { result ≡ item_name item.now }
    {
        match item {
            Item::Event(message) => ItemName::Event(message.timestamp()),
            Item::EndMark => ItemName::EndMark,
        }
    }
}

impl PacketName {
    pub(crate) fn of(packet: &Packet) -> PacketName
        ensures { result ≡ packet_name packet.now }
    {
        match packet {
            Packet::Connect { session } => PacketName::Connect { session: *session },
            Packet::Publish { session, tag, item } => PacketName::Publish {
                session: *session,
                tag: *tag,
                item: ItemName::of(item),
            },
        }
    }
}

impl Moved {
    /// The start of a session that has just started.
    pub(crate) fn started(session: &Session) -> Moved
        ensures { (course : Course) → StandsFor session.now course
            → result ≡ session_started course }
    {
        Moved::SessionStarted {
            session: session.number(),
            after: session.base(),
        }
    }

    /// The loss of a session, before the crash that ends it.
    pub(crate) fn lost(session: &Session) -> Moved
        ensures { (course : Course) → StandsFor session.now course
            → result ≡ session_lost course }
    {
        Moved::SessionLost {
            session: session.number(),
        }
    }

    /// What a session was just offered.
    pub(crate) fn offered(session: &Session) -> Moved
        ensures { (course : Course) → StandsFor session.now course
            → result ≡ events_offered course }
    {
        Moved::EventsOffered {
            count: session.unsent_len(),
            first: session.next_event().map(|event| event.timestamp),
            last: session.last_offered(),
            complete: session.is_complete(),
        }
    }

    /// What a session has just saved.
    pub(crate) fn saved(session: &Session) -> Moved
        ensures { (course : Course) → StandsFor session.now course
            → result ≡ progress_saved course }
    {
        Moved::ProgressSaved {
            session: session.number(),
            timestamp: session.confirmed(),
        }
    }

    /// A confirm that this session received. The broker of a world gives no other answer than `Confirmed`.
    pub(crate) fn answered(session: &Session, confirm: Confirm) -> Option<Moved>
        ensures { (course : Course) → StandsFor session.now course
            → result ≡ confirm_answered course confirm }
    {
        match confirm.answer {
            Answer::Confirmed(tag) => Some(Moved::ConfirmReceived {
                session: confirm.session,
                tag,
                running: session.number(),
            }),
            _ => None,
        }
    }

    /// A delivery that a queue has just sent.
    pub(crate) fn sent(delivery: &Delivery) -> Moved
        ensures { result ≡ delivery_sent delivery.now }
    {
        Moved::DeliverySent {
            position: delivery.position,
            item: ItemName::of(&delivery.item),
        }
    }

    /// A delivery that a subscriber is about to take.
    pub(crate) fn taken(delivery: &Delivery) -> Moved
        ensures { result ≡ delivery_taken delivery.now }
    {
        Moved::DeliveryTaken {
            position: delivery.position,
            item: ItemName::of(&delivery.item),
        }
    }
}
