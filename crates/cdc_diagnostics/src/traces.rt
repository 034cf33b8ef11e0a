//! A step of a simulation in words: what it did and what it moved.

ghost use Rattle.std.specs.Prelude.{◌≡◌, ◌++◌, ℕ, List, codes, decimal};
ghost use Rattle.cdc_ledger.specs.Events.{events};
ghost use Rattle.cdc_diagnostics.specs.Sentences.{sentence_text};
ghost use Rattle.cdc_diagnostics.specs.Texts.{Holds};
ghost use Rattle.cdc_diagnostics.specs.Traces.{acknowledged_text, batch_text, begin_text, confirm_text, did_text, end_text, event_text, ignored_text, lost_text, money_text, moved_text, offer_text, packet_text, position_text, publish_text, saved_text, seen_of, start_text, taken_text, taking_text, trace_line};
ghost use Rattle.cdc_diagnostics.specs.Traces as spec;

use crate::movements::Movement;
use crate::results::{accepted_count, item_count};
use crate::sentences::Sentence;
use crate::steps::step_text;
use crate::texts::Text;
use cdc_ledger::Ledger;
use cdc_subscriber::Taking;
use cdc_types::{Batch, BatchResults, Step};
use cdc_world::{Did, ItemName, Moved, PacketName};

/// A step that was done.
#[derive(Clone, Copy)]
pub(crate) struct Done<'a> {
    pub step: &'a Step,
    /// Its result.
    pub did: &'a Did,
    /// What it moved. None if it moved nothing.
    pub moved: Option<Moved>,
    /// The ledger after it.
    pub ledger: &'a Ledger,
    /// How many batches the ledger has taken, with this one.
    pub batches: usize,
}

impl Done<'_> {
    /// Adds the step's line to a trace.
    pub(crate) fn push_to(self, trace: &mut Text)
        ensures { (bytes : List ℕ) → Holds trace.old bytes
            → Holds trace.new (bytes ++ trace_line self.entry.batches (seen_of self.entry)) }
    {
        trace.push_sentence(step_text(self.step));
        trace.push(": ");
        trace.push_sentence(self.sentence());
        self.push_movement(trace);
        trace.push("\n");
    }

    /// What the step did, in words.
    pub(crate) fn sentence(self) -> Sentence
        ensures { sentence_text result ≡ did_text self.entry.batches (seen_of self.entry) }
    {
        match (self.step, self.moved) {
            (Step::Submit(batch), _) => submitted_sentence(batch, self.did, self.batches),
            (Step::CloseLedger, _) => Sentence::Plain("the ledger takes no more batches"),
            (Step::Close(_), _) => Sentence::Plain("the subscriber applies no more"),
            (_, Some(moved)) => self.moved_sentence(moved),
            (_, None) => Sentence::Plain("done"),
        }
    }

    /// Adds the money that the step's event moves, if it has exactly one.
    pub(crate) fn push_movement(self, text: &mut Text)
        ensures { (bytes : List ℕ) → Holds text.old bytes
            → Holds text.new (bytes ++ money_text (seen_of self.entry)) }
    {
        let Some(moved) = self.moved else {
            return;
        };
        let Some(timestamp) = event_moved(moved) else {
            return;
        };
        if let Some(movement) = Movement::at(self.ledger, timestamp) {
            text.push(", ");
            movement.push_to(text);
        }
    }

    /// Whether the step took a confirm that counted.
    pub(crate) fn has_counted(self) -> bool
        ensures { result ≡ spec.has_counted self.entry.did.now }
    {
        matches!(self.did, Did::Counted(true))
    }

    /// What the step moved, in words.
    fn moved_sentence(self, moved: Moved) -> Sentence
        ensures { sentence_text result ≡ moved_text self.entry.step.now self.entry.did.now
            (events self.entry.ledger.now) moved }
    {
        match moved {
            Moved::SessionStarted { session, after } => self.started_sentence(session, after),
            Moved::SessionLost { session } => {
                Sentence::One("session ", session.into(), " is gone")
            }
            Moved::EventsOffered {
                count,
                first,
                last,
                complete,
            } => offer_sentence(count, first.unwrap_or(0), last, complete),
            Moved::PacketSent { number, packet } => packet_sentence(number, packet),
            Moved::PacketTaken { packet } => arrival_sentence(packet),
            Moved::PacketIgnored {
                packet,
                connection,
                next_tag,
            } => ignored_sentence(packet, connection, next_tag),
            Moved::ConfirmReceived {
                session,
                tag,
                running,
            } => self.confirm_sentence(session, tag, running),
            Moved::ProgressSaved { session, timestamp } => saved_sentence(session, timestamp),
            Moved::DeliverySent { position, item } => position_sentence(position, item),
            Moved::QueueRewound { acked } => {
                Sentence::One("begins again at position ", u128::from(acked) + 1, "")
            }
            Moved::FlightLost { count, acked } => lost_sentence(count, acked),
            Moved::DeliveryTaken { item, .. } => self.taking_sentence(item),
            Moved::Acknowledged { acked } => acknowledged_sentence(acked),
        }
    }

    /// That a session started. If a timestamp was given, also how many events are left out so far.
    fn started_sentence(self, session: u64, after: u64) -> Sentence
        ensures { sentence_text result ≡ start_text self.entry.step.now session after
            (events self.entry.ledger.now) }
    {
        match self.step {
            Step::StartAt(_) => {
                let left_out = self.ledger.log().first_after(after);
                late_start_sentence(session, after, left_out)
            }
            _ => start_sentence(session, after),
        }
    }

    /// That the session `running` received a confirm: it counted, or why it didn't.
    fn confirm_sentence(self, session: u64, tag: u64, running: u64) -> Sentence
        ensures { sentence_text result ≡ confirm_text self.entry.did.now session tag running }
    {
        if self.has_counted() {
            return Sentence::Plain("counted");
        }
        if session == running {
            return Sentence::One("ignored, its tag ", tag.into(), " was confirmed already");
        }
        Sentence::Two(
            "ignored, it is of session ",
            session.into(),
            ", and session ",
            running.into(),
            " runs",
        )
    }

    /// What a subscriber did with an item.
    fn taking_sentence(self, item: ItemName) -> Sentence
        ensures { sentence_text result ≡ taking_text self.entry.did.now item }
    {
        let Did::Took(taking) = self.did else {
            return Sentence::Plain("done");
        };
        match item {
            ItemName::Event(timestamp) => event_sentence(timestamp, *taking),
            ItemName::EndMark => end_sentence(*taking),
        }
    }
}

/// That a session started after a timestamp.
fn start_sentence(session: u64, after: u64) -> Sentence
    ensures { sentence_text result ≡ begin_text session after }
{
    Sentence::Two(
        "session ",
        session.into(),
        " begins after ",
        after.into(),
        "",
    )
}

/// That a session started after a timestamp that was given. So many events are left out so far.
fn late_start_sentence(session: u64, after: u64, left_out: usize) -> Sentence
    ensures { sentence_text result ≡ begin_text session after
        ++ codes ", events left out so far: " ++ decimal left_out }
{
    Sentence::Three(
        "session ",
        session.into(),
        " begins after ",
        after.into(),
        ", events left out so far: ",
        left_out as u128,
        "",
    )
}

/// That a session saved its progress.
fn saved_sentence(session: u64, timestamp: u64) -> Sentence
    ensures { sentence_text result ≡ saved_text session timestamp }
{
    Sentence::Two(
        "session ",
        session.into(),
        " is confirmed up to ",
        timestamp.into(),
        "",
    )
}

/// The timestamp of a step's event. None if it has no event or several.
fn event_moved(moved: Moved) -> Option<u64>
    ensures { result ≡ spec.event_moved moved }
{
    match moved {
        Moved::EventsOffered {
            count: 1,
            first,
            ..
        } => first,
        Moved::PacketSent { packet, .. } | Moved::PacketTaken { packet } => match packet {
            PacketName::Publish { item, .. } => event_named(item),
            PacketName::Connect { .. } => None,
        },
        Moved::DeliverySent { item, .. } | Moved::DeliveryTaken { item, .. } => event_named(item),
        _ => None,
    }
}

/// The timestamp of an item. None for an end mark.
fn event_named(item: ItemName) -> Option<u64>
    ensures { result ≡ spec.item_event item }
{
    match item {
        ItemName::Event(timestamp) => Some(timestamp),
        ItemName::EndMark => None,
    }
}

/// That the ledger took the batch of this number.
fn submitted_sentence(batch: &Batch, did: &Did, number: usize) -> Sentence
    ensures { sentence_text result ≡ batch_text number batch.now did.now }
{
    match did {
        Did::Submitted(BatchResults::Pulsed(expired)) => {
            Sentence::Two(
                "batch ",
                number as u128,
                ", a pulse, expired ",
                (*expired).into(),
                "",
            )
        }
        Did::Submitted(results) => {
            let items = item_count(batch);
            let accepted = accepted_count(results);
            Sentence::Four(
                "batch ",
                number as u128,
                ", items ",
                items as u128,
                ", accepted ",
                accepted as u128,
                ", refused ",
                items.saturating_sub(accepted) as u128,
            )
        }
        _ => Sentence::Plain("done"),
    }
}

/// What a session was offered: `count` events, from timestamp `first` to `last`.
fn offer_sentence(count: usize, first: u64, last: u64, complete: bool) -> Sentence
    ensures { sentence_text result ≡ offer_text count first last complete }
{
    match (count, complete) {
        (0, false) => Sentence::Plain("no event yet"),
        (0, true) => Sentence::Plain("no event follows"),
        (1, false) => Sentence::One("event ", first.into(), ""),
        (1, true) => Sentence::One("event ", first.into(), ", the last one"),
        (_, false) => events_sentence(count, first, last, ""),
        (_, true) => events_sentence(count, first, last, ", the last ones"),
    }
}

fn events_sentence(count: usize, first: u64, last: u64, after: &'static str) -> Sentence
    ensures { sentence_text result ≡ decimal count ++ codes " events, " ++ decimal first
        ++ codes " to " ++ decimal last ++ after.now }
{
    Sentence::Three(
        "",
        count as u128,
        " events, ",
        first.into(),
        " to ",
        last.into(),
        after,
    )
}

/// A packet under its number.
pub(crate) fn packet_sentence(number: u64, packet: PacketName) -> Sentence
    ensures { sentence_text result ≡ packet_text number packet }
{
    match packet {
        PacketName::Connect { session } => {
            Sentence::Two(
                "packet ",
                number.into(),
                ", connect of session ",
                session.into(),
                "",
            )
        }
        PacketName::Publish {
            session,
            tag,
            item: ItemName::Event(timestamp),
        } => publish_sentence(number, session, tag, timestamp),
        PacketName::Publish {
            session: _,
            tag,
            item: ItemName::EndMark,
        } => Sentence::Two(
            "packet ",
            number.into(),
            ", end mark under tag ",
            tag.into(),
            "",
        ),
    }
}

/// A packet that publishes the event of this timestamp.
fn publish_sentence(number: u64, session: u64, tag: u64, timestamp: u64) -> Sentence
    ensures { sentence_text result ≡ publish_text number session tag timestamp }
{
    Sentence::Four(
        "packet ",
        number.into(),
        ", event ",
        timestamp.into(),
        " under tag ",
        tag.into(),
        " of session ",
        session.into(),
    )
}

/// That the broker took a packet.
fn arrival_sentence(packet: PacketName) -> Sentence
    ensures { sentence_text result ≡ taken_text packet }
{
    match packet {
        PacketName::Connect { session } => {
            Sentence::One("taken, session ", session.into(), " is connected")
        }
        PacketName::Publish {
            item: ItemName::Event(timestamp),
            ..
        } => Sentence::One("taken, event ", timestamp.into(), ""),
        PacketName::Publish { .. } => Sentence::Plain("taken, end mark"),
    }
}

/// Why the broker ignored a packet, with this connection and this next tag.
fn ignored_sentence(packet: PacketName, connection: u64, next_tag: Option<u64>) -> Sentence
    ensures { sentence_text result ≡ ignored_text packet connection next_tag }
{
    match packet {
        _ if connection == 0 => Sentence::Plain("ignored, no session is connected"),
        PacketName::Publish { session, tag, .. } if session == connection => match next_tag {
            Some(next) if next <= tag => {
                Sentence::One("ignored, tag ", next.into(), " comes first")
            }
            _ => Sentence::One("ignored, its tag ", tag.into(), " was taken already"),
        },
        _ => Sentence::One("ignored, session ", connection.into(), " is connected"),
    }
}

fn position_sentence(position: u64, item: ItemName) -> Sentence
    ensures { sentence_text result ≡ position_text position item }
{
    match item {
        ItemName::Event(timestamp) => {
            Sentence::Two(
                "position ",
                position.into(),
                ", event ",
                timestamp.into(),
                "",
            )
        }
        ItemName::EndMark => Sentence::One("position ", position.into(), ", end mark"),
    }
}

/// That a queue lost so many deliveries in flight.
fn lost_sentence(count: usize, acked: u64) -> Sentence
    ensures { sentence_text result ≡ lost_text count acked }
{
    Sentence::Two(
        "lost on the way ",
        count as u128,
        ", begins again at position ",
        u128::from(acked) + 1,
        "",
    )
}

/// That a queue counted an acknowledgement.
fn acknowledged_sentence(acked: u64) -> Sentence
    ensures { sentence_text result ≡ acknowledged_text acked }
{
    Sentence::One(
        "counted, all up to position ",
        acked.into(),
        " are acknowledged",
    )
}

/// What a subscriber did with the event of this timestamp.
fn event_sentence(timestamp: u64, taking: Taking) -> Sentence
    ensures { sentence_text result ≡ event_text taking timestamp }
{
    let words = match taking {
        Taking::Applied => "applied ",
        Taking::Repeat => "repeat of ",
        Taking::Ended => "ended by ",
        Taking::AfterClose => "ignored, the subscriber is closed: event ",
    };
    Sentence::One(words, timestamp.into(), "")
}

/// What a subscriber did with an end mark.
fn end_sentence(taking: Taking) -> Sentence
    ensures { sentence_text result ≡ end_text taking }
{
    Sentence::Plain(match taking {
        Taking::Applied => "applied the end mark",
        Taking::Repeat => "repeat of the end mark",
        Taking::Ended => "heard the end mark",
        Taking::AfterClose => "ignored, the subscriber is closed: end mark",
    })
}
