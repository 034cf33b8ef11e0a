//! A follower: it applies each event of a stream once, and reports a gap.

ghost use Rattle.cdc_subscriber.specs.Answers.{listens};
ghost use Rattle.std.specs.Prelude.{◌≡◌, true, OnOk, OnErr, IfOk};
ghost use Rattle.cdc_follow.specs.Following.{FollowState};
ghost use Rattle.cdc_follow.specs.Following.{after_outcome, belongs as is_of_stream, content_outcome, end_outcome};
ghost use Rattle.cdc_follow.specs.Following.{follows as is_next, next_follow, outcome_of, state_by};

use crate::entries::{Content, Entry};
use cdc_match::Binding;
use cdc_message::headers_of;
use cdc_subscriber::Subscriber;
use cdc_types::{Event, Limits};
use std::alloc::AllocError;
use std::marker::Model;

/// What became of an entry.
#[derive(Clone, Copy, Debug, PartialEq, Eq)]
pub enum Following {
    /// The event is applied.
    Applied,
    /// The event is new, but the binding doesn't take it.
    PassedBy,
    /// Nothing changes: the event isn't later than the last one seen, or it is the end that was received before.
    Duplicate,
    /// Nothing changes: the entry's predecessor isn't the last event seen, so events are missing before it, or it isn't
    /// of this queue.
    Gap,
    /// The end is received: no further event follows.
    Ended,
    /// Nothing changes: the entry contradicts the end that was received before. It is a later event, or the end of
    /// another place.
    AfterEnd,
    /// Nothing changes: the event's timestamp is above the greatest one of a ledger.
    OutOfRange,
}

/// What takes the entries of a stream as a follower does.
pub trait TakesEntries {
    /// The follower that it is.
    ghost state: { Self → FollowState };

    /// Taking entries may make the second one of the first.
    ghost moves: { Self → Self → Type 0 };

    /// Takes an entry. The one error is that memory ran out, and then nothing changes.
    fn take_entry(&mut self, binding: &Binding, entry: &Entry) -> Result<Following, AllocError>
        ensures answer { IfOk result (λ answer. answer ≡ outcome_of binding.now (state self.old) entry.now) }
        ensures state { OnOk result (state self.new ≡ next_follow binding.now (state self.old) entry.now) }
        ensures moves { OnOk result (moves self.old self.new) }
        ensures err { OnErr result (self.new ≡ self.old) };

    /// So may taking none.
    ghost stays: { (it : Self) → moves it it };
}

/// A follower: a subscriber, and the timestamp of the last event seen. In a chained stream this is the last one that
/// was applied or passed by, in any other one the last one applied.
pub struct Follower {
    subscriber: Subscriber,
    seen: u64,
}

impl Drop for Follower {
    fn drop(self) {
        let Follower {
            subscriber: _,
            seen: _,
        } = self;
    }
}

impl Model for Follower {
    ghost use Rattle.cdc_follow.specs.Following.{FollowState};

    ghost Value = { FollowState };

    ghost view = { λ f. record { kept = f.subscriber; seen = f.seen } };
}

impl Follower {
    /// A follower with this subscriber that has seen the events up to this timestamp.
    pub fn new(subscriber: Subscriber, seen: u64) -> Follower
        ensures { result ≡ record { kept = subscriber; seen = seen } }
    {
        Follower { subscriber, seen }
    }

    /// Takes an entry. The one error is that memory ran out, and then nothing changes.
    pub fn take(&mut self, binding: &Binding, entry: &Entry) -> Result<Following, AllocError>
        ensures answer { IfOk result (λ answer. answer ≡ outcome_of binding.now self.old entry.now) }
        ensures state { OnOk result (self.new ≡ next_follow binding.now self.old entry.now) }
        ensures err { OnErr result (self.new ≡ self.old) }
    {
        if self.subscriber.ended() {
            return Ok(after_end(binding, self.seen, entry));
        }
        if self.subscriber.closed() {
            return Ok(Following::Duplicate);
        }
        match &entry.content {
            Content::Event(event) => self.take_event(binding, event, entry.previous),
            Content::End => Ok(self.take_end(entry.previous)),
        }
    }

    /// The subscriber, with its book.
    pub fn subscriber(&self) -> &Subscriber
        ensures { result.now ≡ self.now.kept }
    {
        &self.subscriber
    }

    /// The timestamp of the last event seen.
    pub fn seen(&self) -> u64
        ensures { result ≡ self.now.seen }
    {
        self.seen
    }

    /// Takes an event of an open stream.
    fn take_event(
        &mut self,
        binding: &Binding,
        event: &Event,
        previous: Option<u64>,
    ) -> Result<Following, AllocError>
        requires { listens self.old.kept ≡ true }
        ensures answer { IfOk result (λ answer. answer
            ≡ content_outcome binding.now self.old.seen previous (Content.Event event.now)) }
        ensures state { OnOk result (self.new ≡ state_by
            (content_outcome binding.now self.old.seen previous (Content.Event event.now))
            self.old previous (Content.Event event.now)) }
        ensures err { OnErr result (self.new ≡ self.old) }
    {
        if event.timestamp <= self.seen {
            return Ok(Following::Duplicate);
        }
        if event.timestamp > Limits::TIMESTAMP {
            return Ok(Following::OutOfRange);
        }
        if !follows(self.seen, previous) {
            return Ok(Following::Gap);
        }
        if !binding.matches(&headers_of(event)) {
            if previous.is_some() {
                self.seen = event.timestamp;
            }
            return Ok(Following::PassedBy);
        }
        if self.subscriber.take_event(event).is_err() {
            return Err(AllocError);
        }
        self.seen = event.timestamp;
        Ok(Following::Applied)
    }

    /// Takes the end of an open stream.
    fn take_end(&mut self, previous: Option<u64>) -> Following
        requires { listens self.old.kept ≡ true }
        ensures answer { result ≡ end_outcome self.old.seen previous }
        ensures state { self.new ≡ state_by (end_outcome self.old.seen previous) self.old previous Content.End }
    {
        if !follows(self.seen, previous) {
            return Following::Gap;
        }
        let _taking = self.subscriber.take_end();
        Following::Ended
    }
}

impl TakesEntries for Follower {
    ghost use Rattle.std.specs.Prelude.{⊤};

    ghost state = { λ it. it };

    ghost moves = { λ _ _. ⊤ };

    fn take_entry(&mut self, binding: &Binding, entry: &Entry) -> Result<Following, AllocError> {
        self.take(binding, entry)
    }

    ghost stays = { λ _. tt };
}

/// Whether an entry follows the last event seen: its predecessor, if it names one, is that event.
fn follows(seen: u64, previous: Option<u64>) -> bool
    ensures { result ≡ is_next seen previous }
{
    match previous {
        Some(previous) => previous == seen,
        None => true,
    }
}

/// Whether an event belongs to the stream: it names its predecessor, or the binding takes it.
fn belongs(binding: &Binding, previous: Option<u64>, event: &Event) -> bool
    ensures { result ≡ is_of_stream binding.now previous event.now }
{
    match previous {
        Some(_) => true,
        None => binding.matches(&headers_of(event)),
    }
}

/// What becomes of an entry after the end.
fn after_end(binding: &Binding, seen: u64, entry: &Entry) -> Following
    ensures { result ≡ after_outcome binding.now seen entry.now.previous entry.now.content }
{
    match &entry.content {
        Content::Event(event) => event_after_end(binding, seen, entry.previous, event),
        Content::End if follows(seen, entry.previous) => Following::Duplicate,
        Content::End => Following::AfterEnd,
    }
}

/// What becomes of an event after the end.
fn event_after_end(binding: &Binding, seen: u64, previous: Option<u64>, event: &Event) -> Following
    ensures { result ≡ after_outcome binding.now seen previous (Content.Event event.now) }
{
    if event.timestamp <= seen {
        Following::Duplicate
    } else if event.timestamp > Limits::TIMESTAMP {
        Following::OutOfRange
    } else if belongs(binding, previous, event) {
        Following::AfterEnd
    } else {
        Following::PassedBy
    }
}
