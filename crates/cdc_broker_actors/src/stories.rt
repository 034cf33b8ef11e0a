//! What an actor saw that didn't go straight through: lost, ignored and duplicate messages. No contract mentions it:
//! it is for the trace of a run.

use cdc_message::{Answer, Delivery, Item, decode};
use cdc_subscriber::Taking;
use cdc_types::Event;
use std::alloc::Global;

/// What an item carries.
#[derive(Clone, Copy, Debug, PartialEq, Eq)]
pub enum Carried {
    Event(Event),
    /// The mark that no more events follow.
    EndMark,
}

impl Carried {
    /// Its place in the ledger's order: the event's timestamp in nanoseconds, or the greatest number for an end mark.
    pub fn order(&self) -> u64 {
        match self {
            Carried::Event(event) => event.timestamp,
            Carried::EndMark => u64::MAX,
        }
    }

    // None if there is no memory to decode it.
    fn by(alloc: Global, item: &Item) -> Option<Carried> {
        match item {
            Item::Event(message) => match decode(alloc, message.body().as_bytes()) {
                Ok(event) => Some(Carried::Event(event)),
                Err(_) => None,
            },
            Item::EndMark => Some(Carried::EndMark),
        }
    }
}

/// What became of a publish at the broker.
#[derive(Clone, Copy, Debug, PartialEq, Eq)]
pub enum Fate {
    /// It was accepted and confirmed.
    Taken,
    /// It was accepted, and its confirm was lost.
    ConfirmLost,
    /// It was lost before the broker took it.
    Lost,
    /// The broker ignored it: its session was over, or had an earlier publish lost.
    Skipped,
}

impl Fate {
    // Of a publish that wasn't lost, by the broker's answer to it.
    pub(crate) fn of(answer: Answer) -> Fate {
        match answer {
            Answer::Confirmed(_) => Fate::Taken,
            Answer::Broken => Fate::ConfirmLost,
            Answer::Connected | Answer::Ignored => Fate::Skipped,
        }
    }
}

/// A publish that came to the broker.
#[derive(Clone, Copy, Debug)]
pub struct Sending {
    /// The number of the session that sent it.
    pub session: u64,
    /// Its place in its session, from 1.
    pub tag: u64,
    pub carried: Carried,
    /// Whether an earlier publish carried the same item.
    pub is_again: bool,
    pub fate: Fate,
}

/// What a session has published: all items of the ledger from one to another, in order.
#[derive(Clone, Copy, Debug)]
pub struct Span {
    /// The session's number.
    pub session: u64,
    /// The place of its first item in the ledger's order (see `Carried::order`).
    pub first: u64,
    /// The place of its last item.
    pub last: u64,
}

/// The publishes of a run that a trace reports, as they came to its broker.
#[derive(Drop)]
pub struct Story {
    sendings: Vec<Sending>,
    spans: Vec<Span>,
    // The body of the last publish that came; empty if that was an end mark or none has come.
    latest: String,
    // The greatest place in the ledger's order that an earlier session than the current one has published.
    greatest: u64,
    // Whether the current session has published nothing yet that an earlier one hasn't.
    goes_back: bool,
    is_whole: bool,
}

impl Story {
    pub(crate) fn new(alloc: Global) -> Story {
        Story {
            sendings: Vec::new(alloc),
            spans: Vec::new(alloc),
            latest: String::new(alloc),
            greatest: 0,
            goes_back: false,
            is_whole: true,
        }
    }

    /// The publishes that were lost, ignored or not confirmed, or that carried what an earlier one had, in the order
    /// in which they came.
    pub fn sendings(&self) -> &[Sending] {
        self.sendings.as_slice()
    }

    /// What each session has published, for those that have published something.
    pub fn spans(&self) -> &[Span] {
        self.spans.as_slice()
    }

    /// Whether the trace is complete. Otherwise memory ran out for it, and what came from then on is missing.
    pub fn is_whole(&self) -> bool {
        self.is_whole
    }

    // Notes a publish of this session, before its fate is known.
    pub(crate) fn receive_next(&mut self, alloc: Global, session: u64, item: &Item) {
        if self.is_whole && self.try_receive(alloc, session, item).is_none() {
            self.is_whole = false;
        }
    }

    fn try_receive(&mut self, alloc: Global, session: u64, item: &Item) -> Option<()> {
        let current = self.spans.last().map(|span| span.session);
        if current != Some(session) {
            self.begin(alloc, session, item)?;
        }
        self.latest.clear();
        if let Item::Event(message) = item {
            self.latest.push_str(message.body()).ok()?;
        }
        Some(())
    }

    // A session publishes its first item.
    fn begin(&mut self, alloc: Global, session: u64, item: &Item) -> Option<()> {
        let first = Carried::by(alloc, item)?.order();
        if !self.spans.is_empty() {
            let last = self.latest(alloc)?.order();
            if let Some(span) = self.spans.last_mut() {
                span.last = last;
            }
            self.greatest = self.greatest.max(last);
            self.goes_back = true;
        }
        self.spans
            .push(Span {
                session,
                first,
                last: u64::MAX,
            })
            .ok()?;
        Some(())
    }

    // What the last publish carried. None if there is no memory to decode it.
    fn latest(&self, alloc: Global) -> Option<Carried> {
        if self.latest.is_empty() {
            return Some(Carried::EndMark);
        }
        match decode(alloc, self.latest.as_bytes()) {
            Ok(event) => Some(Carried::Event(event)),
            Err(_) => None,
        }
    }

    // Notes what became of the last publish.
    pub(crate) fn validate(&mut self, alloc: Global, session: u64, tag: u64, fate: Fate) {
        if self.is_whole
            && (self.goes_back || fate != Fate::Taken)
            && self.try_decide(alloc, session, tag, fate).is_none()
        {
            self.is_whole = false;
        }
    }

    fn try_decide(&mut self, alloc: Global, session: u64, tag: u64, fate: Fate) -> Option<()> {
        let carried = self.latest(alloc)?;
        let is_again = self.goes_back && carried.order() <= self.greatest;
        self.goes_back = is_again;
        if is_again || fate != Fate::Taken {
            self.sendings
                .push(Sending {
                    session,
                    tag,
                    carried,
                    is_again,
                    fate,
                })
                .ok()?;
        }
        Some(())
    }
}

/// A delivery that a subscriber took for a duplicate: it had applied its event, or a later one, or had received the
/// end mark.
#[derive(Clone, Copy, Debug)]
pub struct Repeat {
    /// Its position in the subscriber's queue, from 1.
    pub position: u64,
    pub carried: Carried,
}

/// The duplicates that came to a subscriber.
#[derive(Drop)]
pub struct Repeats {
    repeats: Vec<Repeat>,
    is_whole: bool,
}

impl Repeats {
    pub(crate) fn new(alloc: Global) -> Repeats {
        Repeats {
            repeats: Vec::new(alloc),
            is_whole: true,
        }
    }

    /// The duplicates, in the order in which they came.
    pub fn as_slice(&self) -> &[Repeat] {
        self.repeats.as_slice()
    }

    /// Whether all are listed. Otherwise memory ran out for one, and those from then on are missing.
    pub fn is_whole(&self) -> bool {
        self.is_whole
    }

    // Notes a delivery if the subscriber took it for a duplicate.
    pub(crate) fn note(&mut self, alloc: Global, taking: Taking, delivery: &Delivery) {
        if let Taking::Repeat = taking {
            if self.is_whole && self.try_note(alloc, delivery).is_none() {
                self.is_whole = false;
            }
        }
    }

    fn try_note(&mut self, alloc: Global, delivery: &Delivery) -> Option<()> {
        let carried = Carried::by(alloc, &delivery.item)?;
        let position = delivery.position;
        self.repeats.push(Repeat { position, carried }).ok()?;
        Some(())
    }
}
