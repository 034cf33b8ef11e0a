//! A step in words, as a step file has them.

ghost use Rattle.std.specs.Prelude.{◌≡◌};
ghost use Rattle.cdc_diagnostics.specs.Sentences.{sentence_text};
ghost use Rattle.cdc_diagnostics.specs.StepTexts.{step_line};

use crate::sentences::Sentence;
use cdc_types::Step;

/// The line of a step file for this step.
pub fn step_text(step: &Step) -> Sentence
    ensures { sentence_text result ≡ step_line step.now }
{
    match step {
        Step::Submit(_) => Sentence::Plain("batch"),
        Step::CloseLedger => Sentence::Plain("close_ledger"),
        Step::Start => Sentence::Plain("start"),
        Step::StartAt(time) => Sentence::One("start at ", time.nanoseconds().into(), ""),
        Step::Crash => Sentence::Plain("crash"),
        Step::Poll => Sentence::Plain("poll"),
        Step::Publish => Sentence::Plain("publish"),
        Step::Arrive(number) => Sentence::One("arrive ", (*number).into(), ""),
        Step::Answer(number) => Sentence::One("answer ", (*number).into(), ""),
        Step::Save => Sentence::Plain("save"),
        Step::Send(number) => Sentence::One("send ", (*number).into(), ""),
        Step::Rewind(number) => Sentence::One("rewind ", (*number).into(), ""),
        Step::Break(number) => Sentence::One("break ", (*number).into(), ""),
        Step::Take(number) => Sentence::One("take ", (*number).into(), ""),
        Step::Ack(i, k) => Sentence::Two("ack ", (*i).into(), " ", (*k).into(), ""),
        Step::Close(number) => Sentence::One("close ", (*number).into(), ""),
    }
}
