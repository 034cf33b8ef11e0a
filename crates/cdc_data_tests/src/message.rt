use crate::bodies::FIRST;
use cdc_message::{
    DecodeError, Delivery, Field, FieldName, Item, Message, Packet, Part, decode, encode,
    fast_event, properties_of, replay_laws,
};
use cdc_types::{Event, EventAccount, EventKind, EventTransfer};
use std::alloc::{AllocError, Global};
use std::test::Fail;

// The same with the members in the order in which they are checked.
pub const IN_ORDER: &str =
    "{\"timestamp\":\"2000\",\"type\":\"single_phase\",\"ledger\":700,\"transfer\":{\"id\":\"1\",\"amount\":\"100\",\"pending_id\":\"0\",\"user_data_128\":\"0\",\"user_data_64\":\"0\",\"user_data_32\":0,\"timeout\":0,\"code\":1,\"flags\":0,\"timestamp\":\"2000\"},\"debit_account\":{\"id\":\"1\",\"debits_pending\":\"0\",\"debits_posted\":\"100\",\"credits_pending\":\"0\",\"credits_posted\":\"0\",\"user_data_128\":\"0\",\"user_data_64\":\"0\",\"user_data_32\":0,\"code\":10,\"flags\":0,\"timestamp\":\"1000\"},\"credit_account\":{\"id\":\"2\",\"debits_pending\":\"0\",\"debits_posted\":\"0\",\"credits_pending\":\"0\",\"credits_posted\":\"100\",\"user_data_128\":\"0\",\"user_data_64\":\"0\",\"user_data_32\":0,\"code\":10,\"flags\":0,\"timestamp\":\"1001\"}}";

const KINDS: [(EventKind, &str); 5] = [
    (EventKind::SinglePhase, "single_phase"),
    (EventKind::TwoPhasePending, "two_phase_pending"),
    (EventKind::TwoPhasePosted, "two_phase_posted"),
    (EventKind::TwoPhaseVoided, "two_phase_voided"),
    (EventKind::TwoPhaseExpired, "two_phase_expired"),
];

// The first transfer of a ledger: 100 from account 1 to account 2.
fn first_event(kind: EventKind) -> Event {
    let account = EventAccount {
        id: 1,
        debits_pending: 0,
        debits_posted: 100,
        credits_pending: 0,
        credits_posted: 0,
        user_data_128: 0,
        user_data_64: 0,
        user_data_32: 0,
        code: 10,
        flags: 0,
        timestamp: 1000,
    };
    Event {
        timestamp: 2000,
        kind,
        ledger: 700,
        transfer: EventTransfer {
            id: 1,
            amount: 100,
            pending_id: 0,
            user_data_128: 0,
            user_data_64: 0,
            user_data_32: 0,
            timeout: 0,
            code: 1,
            flags: 0,
            timestamp: 2000,
        },
        debit_account: account,
        credit_account: EventAccount {
            id: 2,
            debits_posted: 0,
            credits_posted: 100,
            timestamp: 1001,
            ..account
        },
    }
}

// Decodes `text` after the text `from` in it is replaced with `to`.
fn read_changed(
    alloc: Global,
    text: &str,
    from: &str,
    to: &str,
) -> Result<Result<Event, DecodeError>, AllocError> {
    let text = text.replace(alloc, from, to)?;
    Ok(decode(alloc, text.as_bytes()))
}

// Whether the body of an event of this kind is `FIRST` with this name of the kind.
fn is_written(alloc: Global, kind: EventKind, name: &str) -> Result<bool, AllocError> {
    let text = encode(alloc, &first_event(kind))?;
    let expected = FIRST.replace(alloc, "single_phase", name)?;
    Ok(text.as_str() == expected.as_str())
}

#[test]
fn each_kind_is_written_and_read(rt: HostRuntime) -> Result<(), Fail> {
    let alloc = rt.alloc();
    for (kind, name) in KINDS {
        assert!(rt; is_written(alloc, kind, name)?);
        for text in [FIRST, IN_ORDER] {
            let read = read_changed(alloc, text, "single_phase", name)?;
            assert_eq!(rt; read, Ok(first_event(kind)));
        }
    }
    Ok(())
}

#[test]
fn writers_may_differ(rt: HostRuntime) -> Result<(), Fail> {
    let alloc = rt.alloc();
    let changes = [
        ("\"amount\":\"100\"", "\"amount\":100"),
        ("\"ledger\":700", "\"ledger\":\"700\""),
        ("\"ledger\":700", "\"ledger\":\"000700\""),
        (",", " ,\n"),
        ("{\"timestamp\"", "\n{ \"x\" : [1], \"timestamp\""),
    ];
    for (from, to) in changes {
        let read = read_changed(alloc, IN_ORDER, from, to)?;
        assert_eq!(rt; read, Ok(first_event(EventKind::SinglePhase)), "{to}");
    }
    Ok(())
}

// In the documented order bodies are read without a JSON value, and others aren't.
#[test]
fn documented_bodies_are_read_fast(rt: HostRuntime) -> Result<(), Fail> {
    let alloc = rt.alloc();
    let event = Some(first_event(EventKind::SinglePhase));
    let changes = [
        ("{", "{", event),
        (",", " ,\n", event),
        (":", " : ", event),
        (":\"100\"", ":100", event),
        (":0,", ":\"0\",", event),
        (":\"100\"", ":\"0100\"", None),
        ("{\"timestamp\"", "{\"x\":[1],\"timestamp\"", None),
    ];
    for (from, to, read) in changes {
        let text = IN_ORDER.replace(alloc, from, to)?;
        assert_eq!(rt; fast_event(text.as_bytes()), read, "{to}");
    }
    Ok(())
}

#[test]
fn a_mebibyte_of_spaces_is_no_matter(rt: HostRuntime) -> Result<(), Fail> {
    let alloc = rt.alloc();
    let mut text = String::from_str(alloc, FIRST)?;
    for _ in 0..16_384 {
        text.push_str("                                                                \n")?;
    }
    let event = first_event(EventKind::SinglePhase);
    assert_eq!(rt; decode(alloc, text.as_bytes()), Ok(event));
    Ok(())
}

pub const fn field(part: Part, name: FieldName) -> Field {
    Field { part, name }
}

#[test]
fn spoilt_bodies_are_refused(rt: HostRuntime) -> Result<(), Fail> {
    let alloc = rt.alloc();
    let ledger = field(Part::Top, FieldName::Ledger);
    let amount = field(Part::Transfer, FieldName::Amount);
    let code = field(Part::Debit, FieldName::Code);
    let stamp = field(Part::Top, FieldName::Timestamp);
    let changes = [
        (
            "\"amount\":\"100\"",
            "\"amount\":\"340282366920938463463374607431768211456\"",
            DecodeError::OutOfRange(amount),
        ),
        (
            "\"amount\":\"100\"",
            "\"amount\":true",
            DecodeError::WrongType(amount),
        ),
        (
            "\"ledger\":700",
            "\"ledger\":\"+700\"",
            DecodeError::WrongType(ledger),
        ),
        (
            "\"ledger\":700",
            "\"ledger\":\"\"",
            DecodeError::WrongType(ledger),
        ),
        (
            "\"ledger\":700",
            "\"ledger\":-0",
            DecodeError::WrongType(ledger),
        ),
        (
            "\"ledger\":700",
            "\"ledger\":1.0",
            DecodeError::WrongType(ledger),
        ),
        (
            "\"ledger\":700",
            "\"ledger\":1e2",
            DecodeError::WrongType(ledger),
        ),
        (
            "\"code\":10,\"flags\":0,\"timestamp\":\"1000\"",
            "\"flags\":0,\"timestamp\":\"1000\"",
            DecodeError::Missing(code),
        ),
        ("single_phase", "three_phase", DecodeError::UnknownKind),
        (
            "{\"timestamp\":\"2000\"",
            "{\"timestamp\":18446744073709551616",
            DecodeError::WrongType(stamp),
        ),
        (
            "{\"timestamp\":\"2000\"",
            "{\"timestamp\":\"18446744073709551616\"",
            DecodeError::OutOfRange(stamp),
        ),
    ];
    for (from, to, error) in changes {
        let read = read_changed(alloc, IN_ORDER, from, to)?;
        assert_eq!(rt; read, Err(error), "{to}");
    }
    Ok(())
}

#[test]
fn other_texts_are_no_body(rt: HostRuntime) -> Result<(), Fail> {
    let alloc = rt.alloc();
    let texts: [(&[u8], DecodeError); 2] = [
        (b"[]", DecodeError::NotAnObject),
        (b"{\"timestamp\":\"\xff\"}", DecodeError::NotJson),
    ];
    for (text, error) in texts {
        assert_eq!(rt; decode(alloc, text), Err(error));
    }
    for end in 0..FIRST.len() {
        assert_eq!(rt;
            decode(alloc, &FIRST.as_bytes()[..end]),
            Err(DecodeError::NotJson)
        );
    }
    Ok(())
}

// ---- the parts of a message

#[test]
fn a_message_and_its_copy_have_the_body(rt: HostRuntime) -> Result<(), Fail> {
    let event = first_event(EventKind::TwoPhaseExpired);
    let message = Message::of(rt.alloc(), &event)?.try_copy(rt.alloc())?;
    assert_eq!(rt; decode(rt.alloc(), message.body().as_bytes()), Ok(event));
    Ok(())
}

// Expected values of the properties, given independently: contracts state them by way of other definitions.
#[test]
fn properties_of_a_second(rt: HostRuntime) {
    let properties = properties_of(&Event {
        timestamp: 1_999_999_999,
        ..first_event(EventKind::TwoPhaseExpired)
    });
    assert_eq!(rt; properties.app_id, "tigerbeetle");
    assert_eq!(rt; properties.content_type, "application/json");
    assert_eq!(rt; (properties.delivery_mode, properties.timestamp), (2, 1));
}

// The event with the longest body: every number is the greatest of its width.
fn longest_event() -> Event {
    let account = EventAccount {
        id: u128::MAX,
        debits_pending: u128::MAX,
        debits_posted: u128::MAX,
        credits_pending: u128::MAX,
        credits_posted: u128::MAX,
        user_data_128: u128::MAX,
        user_data_64: u64::MAX,
        user_data_32: u32::MAX,
        code: u16::MAX,
        flags: u16::MAX,
        timestamp: u64::MAX,
    };
    Event {
        timestamp: u64::MAX,
        kind: EventKind::TwoPhasePending,
        ledger: u32::MAX,
        transfer: EventTransfer {
            id: u128::MAX,
            amount: u128::MAX,
            pending_id: u128::MAX,
            user_data_128: u128::MAX,
            user_data_64: u64::MAX,
            user_data_32: u32::MAX,
            timeout: u32::MAX,
            code: u16::MAX,
            flags: u16::MAX,
            timestamp: u64::MAX,
        },
        debit_account: account,
        credit_account: account,
    }
}

// A body as it was written, and others of the same event with small differences.
#[test]
fn the_longest_body_is_read(rt: HostRuntime) -> Result<(), Fail> {
    let alloc = rt.alloc();
    let event = longest_event();
    let text = encode(alloc, &event)?;
    assert_eq!(rt; decode(alloc, text.as_bytes()), Ok(event));
    let changes = [
        (",\"ledger\"", ", \"ledger\""),
        ("\"type\"", "\"type\" "),
        ("\"timestamp\":\"1", "\"timestamp\":\"01"),
        ("\"flags\":65535", "\"flags\":\"65535\""),
    ];
    for (from, to) in changes {
        let read = read_changed(alloc, text.as_str(), from, to)?;
        assert_eq!(rt; read, Ok(event), "{to}");
    }
    Ok(())
}

// Texts that begin like the body, or differ from it only in a number or the kind.
#[test]
fn a_body_that_was_written_and_spoilt_is_refused(rt: HostRuntime) -> Result<(), Fail> {
    let alloc = rt.alloc();
    let ledger = field(Part::Top, FieldName::Ledger);
    let changes = [
        ("_phase\"}", "_phase\"}}", DecodeError::NotJson),
        ("\"ledger\":700", "\"ledger\":0700", DecodeError::NotJson),
        (
            "\"ledger\":700",
            "\"ledger\":4294967296",
            DecodeError::OutOfRange(ledger),
        ),
        ("single_phase", "single_phas", DecodeError::UnknownKind),
    ];
    for (from, to, error) in changes {
        let read = read_changed(alloc, FIRST, from, to)?;
        assert_eq!(rt; read, Err(error), "{to}");
    }
    Ok(())
}

// The event of an item, decoded from its message's body.
fn event_of(alloc: Global, item: &Item) -> Result<Option<Event>, DecodeError> {
    match item {
        Item::Event(message) => Ok(Some(decode(alloc, message.body().as_bytes())?)),
        Item::EndMark => Ok(None),
    }
}

// The item of an event, or the end mark.
fn item(alloc: Global, event: Option<Event>) -> Result<Item, AllocError> {
    match event {
        Some(event) => Ok(Item::Event(Message::of(alloc, &event)?)),
        None => Ok(Item::EndMark),
    }
}

// The session, the tag and the item of a copy of a publish; no tag is 0.
fn copied_packet(alloc: Global, item: Item) -> Result<(u64, u64, Item), AllocError> {
    let packet = Packet::Publish {
        session: 3,
        tag: 9,
        item,
    };
    match packet.try_copy(alloc)? {
        Packet::Publish { session, tag, item } => Ok((session, tag, item)),
        Packet::Connect { session } => Ok((session, 0, Item::EndMark)),
    }
}

#[test]
fn items_deliveries_and_packets_are_copied(rt: HostRuntime) -> Result<(), Fail> {
    replay_laws();
    for event in [
        Some(first_event(EventKind::SinglePhase)),
        Some(longest_event()),
        None,
    ] {
        let item = item(rt.alloc(), event)?;
        let delivery = Delivery { position: 7, item }.try_copy(rt.alloc())?;
        assert_eq!(rt; delivery.position, 7);
        let (session, tag, item) = copied_packet(rt.alloc(), delivery.item)?;
        assert_eq!(rt; (session, tag), (3, 9));
        assert_eq!(rt; event_of(rt.alloc(), &item)?, event);
    }
    Ok(())
}

#[test]
fn errors_have_numbers_and_names(rt: HostRuntime) {
    let field = field(Part::Credit, FieldName::Amount);
    let errors = [
        (DecodeError::NotJson, 1, "not_json"),
        (DecodeError::NotAnObject, 2, "not_an_object"),
        (DecodeError::Missing(field), 3, "missing"),
        (DecodeError::WrongType(field), 4, "wrong_type"),
        (DecodeError::OutOfRange(field), 5, "out_of_range"),
        (DecodeError::UnknownKind, 6, "unknown_kind"),
        (DecodeError::OutOfMemory, 7, "out_of_memory"),
    ];
    for (error, number, name) in errors {
        assert_eq!(rt; error.number(), number);
        assert_eq!(rt; error.name(), name);
    }
}
