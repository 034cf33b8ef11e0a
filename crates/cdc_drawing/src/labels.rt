//! What a step moved, in a few words.

ghost use Rattle.std.specs.Prelude.{◌≡◌};
ghost use Rattle.cdc_diagnostics.specs.Sentences.{sentence_text};
ghost use Rattle.cdc_drawing.specs.Labels as spec;

use cdc_diagnostics::Sentence;
use cdc_world::{ItemName, Moved, PacketName};

/// What a step moved, after a colon. Empty if it moved nothing.
pub(crate) fn label(moved: Option<Moved>) -> Sentence
    ensures { sentence_text result ≡ spec.label moved }
{
    match moved {
        None => Sentence::Plain(""),
        Some(moved) => moved_label(moved),
    }
}

fn moved_label(moved: Moved) -> Sentence
    ensures { sentence_text result ≡ spec.moved_label moved }
{
    match moved {
        Moved::SessionStarted { session, after } => {
            Sentence::Two(": session ", session.into(), ", after ", after.into(), "")
        }
        Moved::SessionLost { session } => Sentence::One(": session ", session.into(), ""),
        Moved::EventsOffered { count, .. } => Sentence::One(": events ", count as u128, ""),
        Moved::PacketSent { number, packet } => sent_label(number, packet),
        Moved::PacketTaken { packet } => packet_label(packet),
        Moved::PacketIgnored { packet, .. } => packet_label(packet),
        Moved::ConfirmReceived { session, tag, .. } => confirm_label(session, tag),
        Moved::ProgressSaved { timestamp, .. } => Sentence::One(": up to ", timestamp.into(), ""),
        Moved::DeliverySent { position, item } => item_label(position, item),
        Moved::QueueRewound { acked } => Sentence::One(": acknowledged up to ", acked.into(), ""),
        Moved::FlightLost { count, .. } => Sentence::One(": lost ", count as u128, ""),
        Moved::DeliveryTaken { position, item } => item_label(position, item),
        Moved::Acknowledged { acked } => Sentence::One(": up to ", acked.into(), ""),
    }
}

fn confirm_label(session: u64, tag: u64) -> Sentence
    ensures { sentence_text result ≡ spec.confirm_label session tag }
{
    Sentence::Two(": tag ", tag.into(), ", session ", session.into(), "")
}

fn sent_label(number: u64, packet: PacketName) -> Sentence
    ensures { sentence_text result ≡ spec.sent_label number packet }
{
    match packet {
        PacketName::Connect { session } => {
            Sentence::Two(": packet ", number.into(), ", connect ", session.into(), "")
        }
        PacketName::Publish {
            item: ItemName::Event(timestamp),
            ..
        } => Sentence::Two(": packet ", number.into(), ", event ", timestamp.into(), ""),
        PacketName::Publish {
            item: ItemName::EndMark,
            ..
        } => Sentence::One(": packet ", number.into(), ", end mark"),
    }
}

fn packet_label(packet: PacketName) -> Sentence
    ensures { sentence_text result ≡ spec.packet_label packet }
{
    match packet {
        PacketName::Connect { session } => Sentence::One(": connect ", session.into(), ""),
        PacketName::Publish {
            item: ItemName::Event(timestamp),
            ..
        } => Sentence::One(": event ", timestamp.into(), ""),
        PacketName::Publish {
            item: ItemName::EndMark,
            ..
        } => Sentence::Plain(": end mark"),
    }
}

fn item_label(position: u64, item: ItemName) -> Sentence
    ensures { sentence_text result ≡ spec.item_label position item }
{
    match item {
        ItemName::Event(timestamp) => {
            Sentence::Two(
                ": position ",
                position.into(),
                ", event ",
                timestamp.into(),
                "",
            )
        }
        ItemName::EndMark => Sentence::One(": position ", position.into(), ", end mark"),
    }
}
