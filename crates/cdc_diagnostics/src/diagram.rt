//! The steps of a simulation as a sequence diagram, in Mermaid's text (Mermaid, Sequence diagrams).

ghost use Rattle.std.specs.Prelude.{◌≡◌, ◌++◌, ℕ, List, [], IfOk, string_bytes};
ghost use Rattle.cdc_diagnostics.specs.Diagrams as spec;
ghost use Rattle.cdc_diagnostics.specs.Diagrams.{arrival_label, arrow_text, diagram_head, diagram_line, label_text};
ghost use Rattle.cdc_diagnostics.specs.Sentences.{sentence_text};
ghost use Rattle.cdc_diagnostics.specs.Texts.{Holds};
ghost use Rattle.cdc_diagnostics.specs.Traces.{did_text, seen_of};

use crate::sentences::Sentence;
use crate::texts::Text;
use crate::traces::{Done, packet_sentence};
use cdc_types::Step;
use cdc_world::Moved;
use std::alloc::{AllocError, Global};

/// A diagram so far. The ledger is L, the connector C, the broker B and subscriber I is SI.
#[derive(Drop)]
pub(crate) struct Diagram {
    text: Text,
}

impl Diagram {
    pub(crate) fn new(alloc: Global) -> Diagram
        ensures { Holds result.text [] }
    {
        Diagram {
            text: Text::new(alloc),
        }
    }

    /// Adds the head of the diagram, with so many subscribers.
    pub(crate) fn begin(&mut self, subscribers: usize)
        ensures { (bytes : List ℕ) → Holds self.old.text bytes
            → Holds self.new.text (bytes ++ diagram_head subscribers) }
    {
        self.text.push("sequenceDiagram\n");
        self.text.push("    participant L as ledger\n");
        self.text.push("    participant C as connector\n");
        self.text.push("    participant B as broker\n");
        for place in 0..subscribers {
            self.text.push_sentence(participant(place as u128 + 1));
        }
    }

    /// The text. Fails if memory ran out for it.
    pub(crate) fn finish(self) -> Result<String, AllocError>
        ensures { (bytes : List ℕ) → Holds self.text bytes
            → IfOk result (λ text. string_bytes text ≡ bytes) }
    {
        let Diagram { text } = self;
        text.finish()
    }

    /// Adds a step: an arrow from an actor to another one, or a note over one of them, and what the step did.
    pub(crate) fn push(&mut self, done: Done<'_>)
        ensures { (bytes : List ℕ) → Holds self.old.text bytes
            → Holds self.new.text (bytes ++ diagram_line done.entry.batches (seen_of done.entry)) }
    {
        self.text.push("    ");
        self.text.push_sentence(arrow(done));
        self.text.push_sentence(label(done));
        done.push_movement(&mut self.text);
        self.text.push("\n");
    }
}

/// A subscriber in the head of a diagram.
fn participant(number: u128) -> Sentence
    ensures { sentence_text result ≡ spec.participant number }
{
    Sentence::Two("    participant S", number, " as subscriber ", number, "\n")
}

/// The arrow or the note of a step, and the label up to what the step did.
fn arrow(done: Done<'_>) -> Sentence
    ensures { sentence_text result ≡ arrow_text (seen_of done.entry) }
{
    let Some(moved) = done.moved else {
        return still_arrow(done.step);
    };
    match queue_of(done.step) {
        Some(i) => queue_arrow(i, done.step, moved),
        None => connector_arrow(done, moved),
    }
}

/// The note of a step that moved nothing.
fn still_arrow(step: &Step) -> Sentence
    ensures { sentence_text result ≡ spec.still_arrow step.now }
{
    match step {
        Step::Close(i) => Sentence::One("Note over S", (*i).into(), ": "),
        _ => Sentence::Plain("Note over L: "),
    }
}

/// The number of the queue and the subscriber that a step is about. None if it is about no queue.
fn queue_of(step: &Step) -> Option<u64>
    ensures { result ≡ spec.queue_of step.now }
{
    match step {
        Step::Send(i) => Some(*i),
        Step::Rewind(i) => Some(*i),
        Step::Break(i) => Some(*i),
        Step::Take(i) => Some(*i),
        Step::Ack(i, _) => Some(*i),
        _ => None,
    }
}

/// The arrow or the note of a step that is about no queue.
fn connector_arrow(done: Done<'_>, moved: Moved) -> Sentence
    ensures { sentence_text result
        ≡ spec.connector_arrow done.entry.step.now done.entry.did.now moved }
{
    match moved {
        Moved::PacketSent { .. } => Sentence::Plain("Note over C: sent: "),
        Moved::ProgressSaved { .. } => Sentence::Plain("Note over C: saved: "),
        Moved::EventsOffered { .. } => Sentence::Plain("L->>C: "),
        Moved::PacketTaken { .. } => Sentence::Plain("C->>B: "),
        _ => answer_arrow(done),
    }
}

/// The arrow of a packet that the broker ignored or of a confirm. Other steps are notes.
fn answer_arrow(done: Done<'_>) -> Sentence
    ensures { sentence_text result ≡ spec.answer_arrow done.entry.step.now done.entry.did.now }
{
    match done.step {
        Step::Arrive(k) => Sentence::One("C-xB: packet ", (*k).into(), ", "),
        Step::Answer(k) => {
            let before = if done.has_counted() {
                "B-->>C: confirm "
            } else {
                "B--xC: confirm "
            };
            Sentence::One(before, (*k).into(), ", ")
        }
        _ => Sentence::Plain("Note over C: "),
    }
}

/// The arrow or the note of a step that is about queue and subscriber `i`.
fn queue_arrow(i: u64, step: &Step, moved: Moved) -> Sentence
    ensures { sentence_text result ≡ spec.queue_arrow i step.now moved }
{
    match step {
        Step::Ack(_, k) => {
            Sentence::Two("S", i.into(), "-->>B: acknowledgement ", (*k).into(), ", ")
        }
        _ => delivery_arrow(i, moved),
    }
}

/// The arrow of a delivery to subscriber `i`, or a note.
fn delivery_arrow(i: u64, moved: Moved) -> Sentence
    ensures { sentence_text result ≡ spec.delivery_arrow i moved }
{
    match moved {
        Moved::DeliverySent { .. } => Sentence::One("B-)S", i.into(), ": "),
        Moved::FlightLost { .. } => Sentence::One("B--xS", i.into(), ": "),
        Moved::DeliveryTaken { position, .. } => {
            Sentence::Two(
                "Note over S",
                i.into(),
                ": position ",
                position.into(),
                ", ",
            )
        }
        _ => Sentence::One("Note over B: queue ", i.into(), " "),
    }
}

/// The label of a step: the packet if one is taken, otherwise what the step did.
fn label(done: Done<'_>) -> Sentence
    ensures { sentence_text result ≡ label_text done.entry.batches (seen_of done.entry) }
{
    match done.step {
        Step::Arrive(k) => arrival_sentence(done, *k),
        _ => done.sentence(),
    }
}

/// The label of a step that packet `k` arrived in.
fn arrival_sentence(done: Done<'_>, k: u64) -> Sentence
    ensures { sentence_text result ≡ arrival_label k
        (did_text done.entry.batches (seen_of done.entry)) done.entry.moved }
{
    match done.moved {
        Some(Moved::PacketTaken { packet }) => packet_sentence(k, packet),
        _ => done.sentence(),
    }
}
