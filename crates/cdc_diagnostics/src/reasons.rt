//! Why a step isn't enabled: a sentence for each reason.

use crate::sentences::Sentence;
use cdc_progress::MemoryStore;
use cdc_publisher::Session;
use cdc_types::Step;
use cdc_world::World;

/// Why a step isn't enabled now.
pub(crate) fn reason(step: &Step, world: &World<MemoryStore>) -> Sentence {
    match step {
        Step::Send(i) | Step::Rewind(i) | Step::Break(i) | Step::Take(i) | Step::Close(i) => {
            queue_reason(step, *i, world)
        }
        Step::Ack(i, k) => ack_reason(*i, *k, world),
        Step::Arrive(k) => arrival_reason(*k, world),
        _ => connector_reason(step, world),
    }
}

/// Why there is no packet of this number.
fn arrival_reason(k: u64, world: &World<MemoryStore>) -> Sentence {
    count_reason(k, world.packets(), PACKETS).unwrap_or(UNKNOWN)
}

/// Why there is no confirm of this number.
fn answer_reason(k: u64, world: &World<MemoryStore>) -> Sentence {
    count_reason(k, world.confirms(), CONFIRMS).unwrap_or(UNKNOWN)
}

/// If no reason is known, which doesn't happen.
const UNKNOWN: Sentence = Sentence::Plain("there is nothing that it could act on");

/// Words for a count of packets: none, one, or more.
const PACKETS: [&str; 3] = [
    "no packet was ever sent",
    "only 1 packet was ever sent",
    " packets were ever sent",
];

const CONFIRMS: [&str; 3] = [
    "no confirm was ever sent",
    "only 1 confirm was ever sent",
    " confirms were ever sent",
];

/// Why there is nothing of this number among `count` of them. None if there is.
fn count_reason(number: u64, count: usize, words: [&'static str; 3]) -> Option<Sentence> {
    let [none, one, more] = words;
    if 0 < number && number <= count as u64 {
        return None;
    }
    Some(match (number, count) {
        (_, 0) => Sentence::Plain(none),
        (0, _) => Sentence::Plain("numbers count from 1"),
        (_, 1) => Sentence::Plain(one),
        _ => Sentence::One("only ", count as u128, more),
    })
}

/// Why a session doesn't start after a given timestamp: progress is saved.
pub(crate) fn start_reason(session: u64, timestamp: u64) -> Sentence {
    Sentence::Two(
        "session ",
        session.into(),
        " has saved progress up to ",
        timestamp.into(),
        ", and a timestamp is taken only if none is saved",
    )
}

/// Why a step of the connector isn't enabled.
fn connector_reason(step: &Step, world: &World<MemoryStore>) -> Sentence {
    let Some(session) = world.session() else {
        return Sentence::Plain("no session runs");
    };
    match step {
        Step::Start | Step::StartAt(_) => {
            Sentence::One("session ", session.number().into(), " runs already")
        }
        Step::Poll => poll_reason(session),
        Step::Publish => publish_reason(session),
        Step::Answer(k) => answer_reason(*k, world),
        _ => UNKNOWN,
    }
}

/// The confirms that a session waits for.
#[derive(Clone, Copy)]
struct Waiting {
    count: usize,
    /// The tag of the first of them.
    first: u64,
}

impl Waiting {
    /// None if the session waits for no confirm.
    fn of(session: &Session) -> Option<Waiting> {
        let first = session.first_waiting()?;
        Some(Waiting {
            count: session.waiting_len(),
            first,
        })
    }
}

/// Why a session wants no events.
fn poll_reason(session: &Session) -> Sentence {
    if session.unsent_len() > 0 {
        return Sentence::Plain("the session has an event that it is to publish first");
    }
    match Waiting::of(session) {
        Some(waiting) if session.is_full() => {
            waiting_sentence(
                [
                    "the session waits for the confirm of tag ",
                    "the session waits for ",
                ],
                waiting,
            )
        }
        _ => Sentence::Plain("the session knows that no event follows"),
    }
}

/// That something waits for confirms: the words before the tag of a single one, and those before a count.
fn waiting_sentence(words: [&'static str; 2], waiting: Waiting) -> Sentence {
    let [one, more] = words;
    if waiting.count == 1 {
        return Sentence::One(one, waiting.first.into(), "");
    }
    Sentence::Two(
        more,
        waiting.count as u128,
        " confirms, from that of tag ",
        waiting.first.into(),
        " on",
    )
}

/// Why a session has no packet to send.
fn publish_reason(session: &Session) -> Sentence {
    match Waiting::of(session) {
        Some(waiting) if session.is_complete() && !session.has_ended() => {
            waiting_sentence(
                [
                    "the end mark waits for the confirm of tag ",
                    "the end mark waits for ",
                ],
                waiting,
            )
        }
        _ if session.has_ended() => Sentence::Plain("the session has sent all, and the end mark"),
        _ => Sentence::Plain("the session has no event that is to be published"),
    }
}

/// Why there is no subscriber of this number.
fn subscriber_reason(i: u64, world: &World<MemoryStore>) -> Sentence {
    Sentence::Two(
        "there is no subscriber ",
        i.into(),
        ": the last one is number ",
        world.subscriber_count() as u128,
        "",
    )
}

/// Why a step of a queue or its subscriber isn't enabled.
fn queue_reason(step: &Step, i: u64, world: &World<MemoryStore>) -> Sentence {
    let Some(number) = world.subscriber_number(i) else {
        return subscriber_reason(i, world);
    };
    match step {
        Step::Take(_) => Sentence::One("nothing is on its way to subscriber ", i.into(), ""),
        Step::Send(_) => sending_reason(i, world.broker().queue_len(number)),
        _ => UNKNOWN,
    }
}

/// Why queue `i`, which received `count` items, has no delivery.
fn sending_reason(i: u64, count: u64) -> Sentence {
    if count == 0 {
        return Sentence::One("queue ", i.into(), " is empty");
    }
    Sentence::Two(
        "queue ",
        i.into(),
        " has nothing behind position ",
        count.into(),
        "",
    )
}

/// Why there is no acknowledgement of this number.
fn ack_reason(i: u64, k: u64, world: &World<MemoryStore>) -> Sentence {
    let Some(number) = world.subscriber_number(i) else {
        return subscriber_reason(i, world);
    };
    match (world.acks(number), k) {
        (0, _) => Sentence::One("subscriber ", i.into(), " has acknowledged nothing"),
        (_, 0) => Sentence::Plain("numbers count from 1"),
        (count, _) => Sentence::Two(
            "subscriber ",
            i.into(),
            " has sent acknowledgements up to number ",
            count as u128,
            "",
        ),
    }
}
