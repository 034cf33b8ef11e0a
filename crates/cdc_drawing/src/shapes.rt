//! The shape of a step: an arrow between lanes, or a mark on one.
//!
//! The ledger's lane is at 45, the connector's at 135, the broker's at 225, the queue of subscriber I at 135 + 180 I, and
//! its subscriber at 225 + 180 I. A message takes two steps: it leaves its lane towards the middle, and comes from there
//! to the other lane.

ghost use Rattle.std.specs.Prelude.{◌≡◌, ◌+◌, ◌*◌, ℕ};
ghost use Rattle.cdc_diagnostics.specs.Sentences.{sentence_text};
ghost use Rattle.cdc_drawing.specs.Shapes as spec;

use cdc_diagnostics::Sentence;
use cdc_subscriber::Taking;
use cdc_types::Step;
use cdc_world::Did;

/// The shape of a step with this answer.
pub(crate) fn shape(step: &Step, did: &Did) -> Sentence
    ensures { sentence_text result ≡ spec.shape step.now did.now }
{
    match step {
        Step::Submit(_) => Sentence::Plain("<use href=\"#batch\" x=\"45\"/>"),
        Step::CloseLedger => Sentence::Plain("<use href=\"#close\" x=\"45\"/>"),
        Step::Start => Sentence::Plain("<use href=\"#start\" x=\"135\"/>"),
        Step::StartAt(_) => Sentence::Plain("<use href=\"#start\" x=\"135\"/>"),
        Step::Crash => Sentence::Plain("<use href=\"#crash\" x=\"135\"/>"),
        Step::Poll => Sentence::Plain("<path class=\"whole\" d=\"M45 0H135\"/>"),
        Step::Publish => Sentence::Plain("<path class=\"out\" d=\"M135 0H180\"/>"),
        Step::Arrive(_) => arrow(
            did,
            "<path class=\"in\" d=\"M180 0H225\"/>",
            "<path class=\"no\" d=\"M180 0H225\"/>",
        ),
        Step::Answer(_) => arrow(
            did,
            "<path class=\"in\" d=\"M180 0H135\"/>",
            "<path class=\"no\" d=\"M180 0H135\"/>",
        ),
        Step::Save => Sentence::Plain("<use href=\"#save\" x=\"135\"/>"),
        Step::Send(i) => between("<path class=\"out\" d=\"M", queue(*i), middle(*i)),
        Step::Rewind(i) => Sentence::One("<use href=\"#rewind\" x=\"", queue(*i), "\"/>"),
        Step::Break(i) => Sentence::One("<use href=\"#lost\" x=\"", middle(*i), "\"/>"),
        Step::Take(i) => {
            between(
                if counts(did) {
                    "<path class=\"in\" d=\"M"
                } else {
                    "<path class=\"no\" d=\"M"
                },
                middle(*i),
                subscriber(*i),
            )
        }
        Step::Ack(i, _) => between("<path class=\"ack\" d=\"M", subscriber(*i), queue(*i)),
        Step::Close(i) => Sentence::One("<use href=\"#close\" x=\"", subscriber(*i), "\"/>"),
    }
}

/// One of two arrows: whether the message counts.
fn arrow(did: &Did, counted: &'static str, other: &'static str) -> Sentence
    ensures { sentence_text result ≡ spec.arrow did.now counted.now other.now }
{
    Sentence::Plain(if counts(did) { counted } else { other })
}

/// An arrow from one place to another.
fn between(front: &'static str, from: u128, to: u128) -> Sentence
    ensures { sentence_text result ≡ spec.between front.now from to }
{
    Sentence::Two(front, from, " 0H", to, "\"/>")
}

/// Whether what came was taken, counted or applied.
fn counts(did: &Did) -> bool
    ensures { result ≡ spec.counts did.now }
{
    match did {
        Did::Arrived(taken) => *taken,
        Did::Counted(counted) => *counted,
        Did::Took(taking) => match taking {
            Taking::Applied => true,
            Taking::Ended => true,
            Taking::Repeat => false,
            Taking::AfterClose => false,
        },
        Did::Submitted(_) => false,
        Did::Done => false,
    }
}

/// The lane of a subscriber's queue.
fn queue(subscriber: u64) -> u128
    ensures { result ≡ subscriber * 180 + 135 }
{
    u128::from(subscriber) * 180 + 135
}

/// The lane of a subscriber.
fn subscriber(subscriber: u64) -> u128
    ensures { result ≡ subscriber * 180 + 225 }
{
    u128::from(subscriber) * 180 + 225
}

/// Half the way between a queue and its subscriber.
fn middle(subscriber: u64) -> u128
    ensures { result ≡ subscriber * 180 + 180 }
{
    u128::from(subscriber) * 180 + 180
}
