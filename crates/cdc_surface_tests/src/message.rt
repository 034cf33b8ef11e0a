//! The public calls for messages: bodies, headers, and what goes over links.

use crate::values::EVENT;
use cdc_message::{
    Answer, Confirm, DecodeError, Delivery, Field, FieldName, Item, Message, Packet, Part, decode,
    encode, headers_of, properties_of,
};
use cdc_types::{Event, Headers, Properties};
use std::alloc::{AllocError, Global};
use std::process::Abort;

const FIELD: Field = Field {
    part: Part::Top,
    name: FieldName::Timestamp,
};

const ERRORS: [DecodeError; 7] = [
    DecodeError::NotJson,
    DecodeError::NotAnObject,
    DecodeError::Missing(FIELD),
    DecodeError::WrongType(FIELD),
    DecodeError::OutOfRange(FIELD),
    DecodeError::UnknownKind,
    DecodeError::OutOfMemory,
];

fn error(error: DecodeError) -> (u8, &'static str) {
    match error {
        DecodeError::NotJson => (1, "not_json"),
        DecodeError::NotAnObject => (2, "not_an_object"),
        DecodeError::Missing(Field { .. }) => (3, "missing"),
        DecodeError::WrongType(Field { .. }) => (4, "wrong_type"),
        DecodeError::OutOfRange(Field { .. }) => (5, "out_of_range"),
        DecodeError::UnknownKind => (6, "unknown_kind"),
        DecodeError::OutOfMemory => (7, "out_of_memory"),
    }
}

#[test]
fn errors_of_bodies_have_numbers_and_names(rt: HostRuntime) {
    for fault in ERRORS {
        let number: u8 = fault.number();
        let name: &'static str = fault.name();
        assert_eq!(rt; (number, name), error(fault));
    }
}

#[test]
fn a_body_is_written_and_read(rt: HostRuntime) {
    let body: Result<String, AllocError> = encode(rt.alloc(), &EVENT);
    let body = body.expect(&rt, "memory");
    let event: Result<Event, DecodeError> = decode(rt.alloc(), body.as_bytes());
    assert_eq!(rt; event, Ok(EVENT));
    let headers: Headers = headers_of(&EVENT);
    let properties: Properties = properties_of(&EVENT);
    assert_eq!(rt; (headers.ledger, properties.delivery_mode), (700, 2));
}

// The message of the event.
fn message(rt: &impl Abort, alloc: Global) -> Message {
    let message: Result<Message, AllocError> = Message::of(alloc, &EVENT);
    message.expect(rt, "memory")
}

#[test]
fn a_message_is_read_and_copied(rt: HostRuntime) {
    let message = message(&rt, rt.alloc());
    let headers: Headers = message.headers();
    let properties: Properties = message.properties();
    assert_eq!(rt;
        (headers, properties),
        (headers_of(&EVENT), properties_of(&EVENT))
    );
    let copy: Result<Message, AllocError> = message.try_copy(rt.alloc());
    let copy = copy.expect(&rt, "memory");
    let body: &str = copy.body();
    assert_eq!(rt; body, message.body());
}

fn is_event(item: &Item) -> bool {
    match item {
        Item::Event(_) => true,
        Item::EndMark => false,
    }
}

#[test]
fn items_and_deliveries_are_copied(rt: HostRuntime) {
    let items: [Item; 2] = [Item::Event(message(&rt, rt.alloc())), Item::EndMark];
    for item in items {
        let copy: Result<Item, AllocError> = item.try_copy(rt.alloc());
        let copy = copy.expect(&rt, "memory");
        assert_eq!(rt; is_event(&copy), is_event(&item));
        let delivery = Delivery { position: 1, item };
        let copy: Result<Delivery, AllocError> = delivery.try_copy(rt.alloc());
        let Delivery { position, item } = copy.expect(&rt, "memory");
        assert_eq!(rt; (position, is_event(&item)), (1, is_event(&delivery.item)));
    }
}

// The session of a packet, and the tag of a publish.
fn session_and_tag(packet: Packet) -> (u64, Option<u64>) {
    match packet {
        Packet::Connect { session } => (session, None),
        Packet::Publish {
            session,
            tag,
            item: _,
        } => (session, Some(tag)),
    }
}

#[test]
fn packets_are_copied(rt: HostRuntime) {
    let publish = Packet::Publish {
        session: 1,
        tag: 2,
        item: Item::EndMark,
    };
    for packet in [Packet::Connect { session: 1 }, publish] {
        let copy: Result<Packet, AllocError> = packet.try_copy(rt.alloc());
        let copy = copy.expect(&rt, "memory");
        assert_eq!(rt; session_and_tag(copy), session_and_tag(packet));
    }
}

fn tag_of(confirm: Confirm) -> Option<u64> {
    match confirm.answer {
        Answer::Connected => None,
        Answer::Confirmed(tag) => Some(tag),
        Answer::Ignored => None,
        Answer::Broken => None,
    }
}

#[test]
fn confirms_have_an_answer(rt: HostRuntime) {
    for (answer, tag) in [
        (Answer::Connected, None),
        (Answer::Confirmed(3), Some(3)),
        (Answer::Ignored, None),
        (Answer::Broken, None),
    ] {
        let session: u64 = 1;
        assert_eq!(rt; tag_of(Confirm { session, answer }), tag);
    }
}
