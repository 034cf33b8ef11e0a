//! A step and its answer, as JSON.

ghost use Rattle.std.specs.Prelude.{◌≡◌};
ghost use Rattle.cdc_diagnostics.specs.Sentences.{sentence_text};
ghost use Rattle.cdc_page.specs.Steps as spec;

use cdc_diagnostics::Sentence;
use cdc_subscriber::Taking;
use cdc_types::Step;
use cdc_world::Did;

/// A step as an array: its name, then its numbers.
pub(crate) fn step_sentence(step: &Step) -> Sentence
    ensures { sentence_text result ≡ spec.step_json step.now }
{
    match step {
        Step::Submit(_) => Sentence::Plain("[\"batch\"]"),
        Step::CloseLedger => Sentence::Plain("[\"close_ledger\"]"),
        Step::Start => Sentence::Plain("[\"start\"]"),
        Step::StartAt(time) => Sentence::One("[\"start_at\",\"", time.nanoseconds().into(), "\"]"),
        Step::Crash => Sentence::Plain("[\"crash\"]"),
        Step::Poll => Sentence::Plain("[\"poll\"]"),
        Step::Publish => Sentence::Plain("[\"publish\"]"),
        Step::Arrive(packet) => Sentence::One("[\"arrive\",\"", (*packet).into(), "\"]"),
        Step::Answer(confirm) => Sentence::One("[\"answer\",\"", (*confirm).into(), "\"]"),
        Step::Save => Sentence::Plain("[\"save\"]"),
        Step::Send(subscriber) => Sentence::One("[\"send\",\"", (*subscriber).into(), "\"]"),
        Step::Rewind(subscriber) => Sentence::One("[\"rewind\",\"", (*subscriber).into(), "\"]"),
        Step::Break(subscriber) => Sentence::One("[\"break\",\"", (*subscriber).into(), "\"]"),
        Step::Take(subscriber) => Sentence::One("[\"take\",\"", (*subscriber).into(), "\"]"),
        Step::Ack(i, k) => Sentence::Two("[\"ack\",\"", (*i).into(), "\",\"", (*k).into(), "\"]"),
        Step::Close(subscriber) => Sentence::One("[\"close\",\"", (*subscriber).into(), "\"]"),
    }
}

/// The answer to a step, by name.
pub(crate) fn did_name(did: &Did) -> &'static str
    ensures { result.now ≡ spec.did_name did.now }
{
    match did {
        Did::Submitted(_) => "submitted",
        Did::Arrived(true) => "taken",
        Did::Arrived(false) => "ignored",
        Did::Counted(true) => "counted",
        Did::Counted(false) => "not_counted",
        Did::Took(taking) => taking_name(*taking),
        Did::Done => "done",
    }
}

/// What a subscriber did with a delivery, by name.
fn taking_name(taking: Taking) -> &'static str
    ensures { result.now ≡ spec.taking_name taking }
{
    match taking {
        Taking::Applied => "applied",
        Taking::Repeat => "duplicate",
        Taking::Ended => "ended",
        Taking::AfterClose => "closed",
    }
}
