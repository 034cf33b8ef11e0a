//! What a step moved, as JSON: an object in three parts, the middle one of which is a packet or an item, if the move has
//! one.

ghost use Rattle.std.specs.Prelude.{◌≡◌, ◌++◌, OnOk};
ghost use Rattle.cdc_diagnostics.specs.Sentences.{sentence_text};
ghost use Rattle.cdc_page.specs.Moves as spec;

use crate::pieces::push_sentence;
use cdc_diagnostics::Sentence;
use cdc_page_text::push;
use cdc_world::{ItemName, Moved, PacketName};
use std::alloc::AllocError;

/// Adds what a step moved: an object, or null if it moved nothing.
pub(crate) fn push_moved(page: &mut Vec<u8>, moved: Option<Moved>) -> Result<(), AllocError>
    ensures { OnOk result (page.new.items ≡ page.old.items ++ spec.moved_json moved) }
{
    match moved {
        None => push(page, "null"),
        Some(moved) => push_move(page, moved),
    }
}

fn push_move(page: &mut Vec<u8>, moved: Moved) -> Result<(), AllocError>
    ensures { OnOk result (page.new.items
        ≡ page.old.items ++ (spec.head moved ++ (spec.content moved ++ spec.tail moved))) }
{
    push_sentence(page, head(moved))?;
    push_sentence(page, content(moved))?;
    push_sentence(page, tail(moved))
}

/// The object's members up to the packet or the item.
fn head(moved: Moved) -> Sentence
    ensures { sentence_text result ≡ spec.head moved }
{
    match moved {
        Moved::SessionStarted { session, after } => Sentence::Two(
            "{\"move\":\"session_started\",\"session\":\"",
            session.into(),
            "\",\"after\":\"",
            after.into(),
            "\"",
        ),
        Moved::SessionLost { session } => {
            Sentence::One(
                "{\"move\":\"session_lost\",\"session\":\"",
                session.into(),
                "\"",
            )
        }
        Moved::EventsOffered { count, last, .. } => Sentence::Two(
            "{\"move\":\"events_offered\",\"count\":\"",
            count as u128,
            "\",\"last\":\"",
            last.into(),
            "\",\"first\":",
        ),
        Moved::PacketSent { number, .. } => Sentence::One(
            "{\"move\":\"packet_sent\",\"number\":\"",
            number.into(),
            "\",\"packet\":",
        ),
        Moved::PacketTaken { .. } => Sentence::Plain("{\"move\":\"packet_taken\",\"packet\":"),
        Moved::PacketIgnored { connection, .. } => Sentence::One(
            "{\"move\":\"packet_ignored\",\"connection\":\"",
            connection.into(),
            "\",\"packet\":",
        ),
        Moved::ConfirmReceived {
            session,
            tag,
            running,
        } => confirm_head(session, tag, running),
        Moved::ProgressSaved { session, timestamp } => Sentence::Two(
            "{\"move\":\"progress_saved\",\"session\":\"",
            session.into(),
            "\",\"timestamp\":\"",
            timestamp.into(),
            "\"",
        ),
        Moved::DeliverySent { position, .. } => Sentence::One(
            "{\"move\":\"delivery_sent\",\"position\":\"",
            position.into(),
            "\",\"item\":",
        ),
        Moved::QueueRewound { acked } => {
            Sentence::One(
                "{\"move\":\"queue_rewound\",\"acked\":\"",
                acked.into(),
                "\"",
            )
        }
        Moved::FlightLost { count, acked } => Sentence::Two(
            "{\"move\":\"flight_lost\",\"count\":\"",
            count as u128,
            "\",\"acked\":\"",
            acked.into(),
            "\"",
        ),
        Moved::DeliveryTaken { position, .. } => Sentence::One(
            "{\"move\":\"delivery_taken\",\"position\":\"",
            position.into(),
            "\",\"item\":",
        ),
        Moved::Acknowledged { acked } => {
            Sentence::One(
                "{\"move\":\"acknowledged\",\"acked\":\"",
                acked.into(),
                "\"",
            )
        }
    }
}

fn confirm_head(session: u64, tag: u64, running: u64) -> Sentence
    ensures { sentence_text result ≡ spec.confirm_head session tag running }
{
    Sentence::Three(
        "{\"move\":\"confirm_received\",\"session\":\"",
        session.into(),
        "\",\"tag\":\"",
        tag.into(),
        "\",\"running\":\"",
        running.into(),
        "\"",
    )
}

/// The packet or the item, or the first timestamp of those that were offered. Empty if the move has none.
fn content(moved: Moved) -> Sentence
    ensures { sentence_text result ≡ spec.content moved }
{
    match moved {
        Moved::EventsOffered { first, .. } => number_or_null(first),
        Moved::PacketSent { packet, .. } => packet_sentence(packet),
        Moved::PacketTaken { packet } => packet_sentence(packet),
        Moved::PacketIgnored { packet, .. } => packet_sentence(packet),
        Moved::DeliverySent { item, .. } => item_sentence(item),
        Moved::DeliveryTaken { item, .. } => item_sentence(item),
        _ => Sentence::Plain(""),
    }
}

/// The rest of the object.
fn tail(moved: Moved) -> Sentence
    ensures { sentence_text result ≡ spec.tail moved }
{
    match moved {
        Moved::EventsOffered { complete: true, .. } => Sentence::Plain(",\"complete\":true}"),
        Moved::EventsOffered {
            complete: false,
            ..
        } => Sentence::Plain(",\"complete\":false}"),
        Moved::PacketIgnored {
            next_tag: Some(tag),
            ..
        } => Sentence::One(",\"next_tag\":\"", tag.into(), "\"}"),
        Moved::PacketIgnored { next_tag: None, .. } => Sentence::Plain(",\"next_tag\":null}"),
        _ => Sentence::Plain("}"),
    }
}

/// A packet as an object: the session that connects, or an item under its session and its tag.
fn packet_sentence(packet: PacketName) -> Sentence
    ensures { sentence_text result ≡ spec.packet_json packet }
{
    match packet {
        PacketName::Connect { session } => {
            Sentence::One("{\"connect\":\"", session.into(), "\"}")
        }
        PacketName::Publish {
            session,
            tag,
            item: ItemName::Event(timestamp),
        } => Sentence::Three(
            "{\"session\":\"",
            session.into(),
            "\",\"tag\":\"",
            tag.into(),
            "\",\"item\":\"",
            timestamp.into(),
            "\"}",
        ),
        PacketName::Publish {
            session,
            tag,
            item: ItemName::EndMark,
        } => Sentence::Two(
            "{\"session\":\"",
            session.into(),
            "\",\"tag\":\"",
            tag.into(),
            "\",\"item\":\"end\"}",
        ),
    }
}

/// An item: the timestamp of its event, or `end`.
fn item_sentence(item: ItemName) -> Sentence
    ensures { sentence_text result ≡ spec.item_json item }
{
    match item {
        ItemName::Event(timestamp) => Sentence::One("\"", timestamp.into(), "\""),
        ItemName::EndMark => Sentence::Plain("\"end\""),
    }
}

fn number_or_null(number: Option<u64>) -> Sentence
    ensures { sentence_text result ≡ spec.number_or_null number }
{
    match number {
        Some(number) => Sentence::One("\"", number.into(), "\""),
        None => Sentence::Plain("null"),
    }
}
