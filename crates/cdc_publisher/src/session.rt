//! The session itself.

ghost use Rattle.std.specs.Prelude.{◌≡◌, ◌⊎◌, ◌≤◌, IsTrue, Some, Err, IfOk, IfErr, OnOk, OnErr, is_some, option_map, unwrap_or, ◌==◌, length, option_copied, slice_get};
ghost use Rattle.circular_buffer.specs.Buffer.{buffer};
ghost use Rattle.cdc_progress.specs.Stores.{IsRisked, MayRefuseSave};
ghost use Rattle.cdc_types.specs.Timestamps.{last_timestamp_from};
ghost use Rattle.cdc_types.specs.Windows.{IsWindow};
ghost use Rattle.cdc_publisher.specs.Courses.{Course, begun, confirmed_timestamp, first_saved, has_event, has_ended, is_done, next_packet, next_poll, next_saved, progress_of, tags_sent, takes_confirm, unconfirmed, unsent, with_confirm, with_offer, with_sent};
ghost use Rattle.cdc_publisher.specs.SessionState.{holds_tag, poll_of, without_tag};
ghost use Rattle.cdc_publisher.specs.Offers.{IsOffered};
ghost use Rattle.cdc_publisher.specs.Stands.{StandsFor};
ghost use Rattle.cdc_publisher.specs.Starts.{HasStarted, IsStartRisked, MayRefuseStart};
ghost use Rattle.cdc_publisher.specs.Turns.{advanced, ends, packet_of};

use crate::errors::StartError;
use cdc_message::{Item, Message, Packet};
use cdc_progress::{Progress, ProgressStore, StoreError};
use cdc_types::{Event, EventTimestamp, Limits};
use circular_buffer::HeapCircularBuffer;
use std::alloc::{AllocError, Global};
use std::marker::Model;

/// The events that a session wants: those after a timestamp, up to a number.
#[derive(Clone, Copy, Debug, PartialEq, Eq)]
pub struct Poll {
    /// The timestamp that the events follow, in nanoseconds.
    pub after: u64,
    /// The greatest number of events.
    pub limit: usize,
}

/// A tag that was sent and isn't confirmed.
#[derive(Clone, Copy)]
struct Unconfirmed {
    tag: u64,
    /// The timestamp up to which all is confirmed while no earlier tag waits: that under the tag before this one, or
    /// the base for tag 1.
    before: u64,
}

/// A connector's session. It sends a connect, then each event that it was offered under tags from 1 on, and the end
/// mark once all are confirmed. It keeps the timestamp up to which all are confirmed, which is what it saves. At most
/// as many events as its window allows wait for their confirms at a time.
///
/// A session forgets what it has sent and what was confirmed. So contracts refer to its course: everything that it
/// was offered, has sent and was confirmed. For any course that the session may represent before a call, a
/// postcondition states which course it represents after the call.
pub struct Session {
    number: u64,
    /// The timestamp after which the first session began, in nanoseconds.
    start: u64,
    /// The timestamp after which this session begins, in nanoseconds. All its events are later.
    base: u64,
    /// The timestamp of the event that was offered last, or the base.
    last: u64,
    /// The timestamp of the event that was sent last, or the base.
    last_sent: u64,
    /// How many packets were sent, including the connect. After the connect, this is also the next tag.
    sent: u64,
    /// The events that are still to be sent, in order.
    unsent: HeapCircularBuffer<Event>,
    /// In rising order of tags. Its capacity is the window.
    unconfirmed: HeapCircularBuffer<Unconfirmed>,
    /// Whether no event follows those that were offered, since the ledger is closed.
    complete: bool,
    /// Whether the end mark was sent.
    ended: bool,
}

// Written by hand, so that code that drops a session calls this instead of dropping each field itself.
impl Drop for Session {
    fn drop(self) {
        let Session {
            number: _,
            start: _,
            base: _,
            last: _,
            last_sent: _,
            sent: _,
            unsent: _,
            unconfirmed: _,
            complete: _,
            ended: _,
        } = self;
    }
}

impl Model for Session {
    ghost use Rattle.cdc_publisher.specs.SessionState.{SessionState};

    ghost Value = { SessionState };

    ghost use Rattle.cdc_publisher.specs.Views.{kept_of, IsBounded};

    ghost view = { kept_of };

    ghost invariant = { IsBounded };
}

/// The timestamp of the last event, or `before` if there is none.
fn last_of(events: &[Event], before: u64) -> u64
    ensures { result ≡ last_timestamp_from before events.now }
{
    match events.last() {
        Some(event) => event.timestamp,
        None => before,
    }
}

/// Takes a tag out of a ring, wherever it is, and returns whether it was there. The others stay in order.
fn take_out(unconfirmed: &mut HeapCircularBuffer<Unconfirmed>, tag: u64) -> bool
    ensures taken { result ≡ holds_tag tag unconfirmed.old.items }
    ensures others { unconfirmed.new
        ≡ buffer (without_tag tag unconfirmed.old.items) unconfirmed.old.capacity }
{
    let mut taken = false;
    for _turn in 0..unconfirmed.len() {
        let entry = unconfirmed.pop_front().unwrap();
        if entry.tag == tag {
            taken = true;
        } else {
            unconfirmed.push_back(entry);
        }
    }
    taken
}

/// What is saved when the first session begins, after this timestamp or, if none is asked for, after 0.
fn first_progress(at: Option<EventTimestamp>) -> Progress
    ensures { result ≡ first_saved at }
{
    match at {
        Some(time) => Progress::new(1, time.nanoseconds(), time.nanoseconds()),
        None => Progress::new(1, 0, 0),
    }
}

/// What is saved when a later session begins: the next number, with the same timestamp and start. Fails if there is
/// no next number.
fn next_progress(held: Progress) -> Result<Progress, StartError>
    ensures { result ≡ next_saved held }
{
    let Some(number) = held.session().checked_add(1) else {
        return Err(StartError::SessionsExhausted);
    };
    Ok(Progress::new(number, held.timestamp(), held.start()))
}

/// What is saved when a session begins with this record held. A timestamp to start after is allowed only if none is
/// held.
fn begin(held: Option<Progress>, at: Option<EventTimestamp>) -> Result<Progress, StartError>
    ensures { result ≡ begun held at }
{
    match held {
        None => Ok(first_progress(at)),
        Some(_) if at.is_some() => Err(StartError::StartNotAllowed),
        Some(progress) => next_progress(progress),
    }
}

impl Session {
    /// Starts the session after the one whose progress the store holds. It begins after the timestamp that is held,
    /// once the store has saved its number; so no later session has the same one. `window` is how many events may
    /// wait for their confirms at a time. The room for them is allocated before the store is used.
    ///
    /// If the store holds nothing, the session begins after `at`, or after 0 if `at` is `None`, and the store keeps
    /// this as the start. If the store holds progress, `at` must be `None`; otherwise the error is `StartNotAllowed`.
    /// It is found after the load and before `SessionsExhausted`, and nothing is saved. `Store`: the load failed, as it
    /// always does for a store that isn't honest, and the store holds what it held; or the save failed, and the store
    /// holds what it loaded or the new record.
    /// `OutOfMemory`: memory ran out, here or in the store, and nothing is saved.
    pub fn start<S: ProgressStore>(
        alloc: Global,
        store: &mut S,
        window: usize,
        at: Option<EventTimestamp>,
    ) -> Result<Session, StartError>
        requires { IsWindow window }
        ensures ok { IfOk result (HasStarted (record {
          honest = S.is_honest store.old;
          before = S.held store.old;
          after = S.held store.new;
          failed_before = S.failed store.old;
          failed_after = S.failed store.new;
        }) at window) }
        ensures err { IfErr result (MayRefuseStart (record {
          honest = S.is_honest store.old;
          before = S.held store.old;
          after = S.held store.new;
          failed_before = S.failed store.old;
          failed_after = S.failed store.new;
        }) at) }
        ensures risked { IfErr result (IsStartRisked (S.risks store.old)) }
        ensures loads { OnOk result (IsTrue (S.is_honest store.old)) }
        ensures honest { S.is_honest store.new ≡ S.is_honest store.old }
        ensures same_risks { S.risks store.new ≡ S.risks store.old }
    {
        let unsent = HeapCircularBuffer::with_capacity(alloc, window)?;
        let unconfirmed = HeapCircularBuffer::with_capacity(alloc, window)?;
        let saved = begin(store.load()?, at)?;
        store.save(saved)?;
        Ok(Session {
            number: saved.session(),
            start: saved.start(),
            base: saved.timestamp(),
            last: saved.timestamp(),
            last_sent: saved.timestamp(),
            sent: 0,
            unsent,
            unconfirmed,
            complete: false,
            ended: false,
        })
    }

    pub fn number(&self) -> u64
        ensures { (course : Course) → StandsFor self.now course → result ≡ course.number }
    {
        self.number
    }

    /// The timestamp that the session's events follow, in nanoseconds.
    pub fn base(&self) -> u64
        ensures { (course : Course) → StandsFor self.now course → result ≡ course.base }
    {
        self.base
    }

    /// The events that the session wants. `None` while an event is unsent, while as many as may wait are unconfirmed,
    /// and once the session is complete.
    pub fn wants(&self) -> Option<Poll>
        ensures kept { result ≡ poll_of self.now }
        ensures wanted { (course : Course) → StandsFor self.now course → result ≡ next_poll course }
    {
        if !self.unsent.is_empty() || self.unconfirmed.is_full() || self.complete {
            return None;
        }
        Some(Poll {
            after: self.last,
            limit: self.unconfirmed.capacity() - self.unconfirmed.len(),
        })
    }

    /// Takes events that it wants. `complete` means that no others follow them, since the ledger is closed.
    pub fn offer(&mut self, events: &[Event], complete: bool)
        requires { IsOffered (poll_of self.old) events.now }
        ensures { (course : Course) → StandsFor self.old course
            → StandsFor self.new (with_offer events.now complete course) }
    {
        self.last = last_of(events, self.last);
        self.unsent.extend_from_slice(events);
        self.complete = complete;
    }

    /// Whether the session has a packet to send.
    pub fn has_packet(&self) -> bool
        ensures { (course : Course) → StandsFor self.now course
            → result ≡ is_some (next_packet course) }
    {
        self.is_sending()
    }

    /// Takes the packet to send next: first the connect, then the oldest unsent event, and the end mark once every
    /// event is confirmed and no other one follows. `None` if nothing is to be sent. Only an event needs memory; if
    /// memory runs out, nothing changes.
    pub fn next_packet(&mut self, alloc: Global) -> Result<Option<Packet>, AllocError>
        ensures packet { (course : Course) → StandsFor self.old course
            → IfOk result (λ packet. packet ≡ next_packet course) }
        ensures stands { (course : Course) → StandsFor self.old course
            → OnOk result (StandsFor self.new (with_sent (next_packet course) course)) }
        ensures err { OnErr result (self.new ≡ self.old) }
        ensures memory { (course : Course) → StandsFor self.old course
            → OnErr result (IsTrue (has_event (next_packet course))) }
    {
        let packet = self.packet(alloc)?;
        self.advance();
        Ok(packet)
    }

    /// Takes a confirm of a session's tag, and returns whether it counts: it is for this session, and the tag was
    /// sent and isn't confirmed. If it doesn't count, nothing changes.
    pub fn confirm(&mut self, session: u64, tag: u64) -> bool
        ensures answer { (course : Course) → StandsFor self.old course
            → result ≡ takes_confirm course session tag }
        ensures stands { (course : Course) → StandsFor self.old course
            → StandsFor self.new (with_confirm session tag course) }
    {
        session == self.number && take_out(&mut self.unconfirmed, tag)
    }

    /// The timestamp of the last event such that it and each earlier one is confirmed, or the base; in nanoseconds.
    pub fn confirmed(&self) -> u64
        ensures confirmed { (course : Course) → StandsFor self.now course
            → result ≡ confirmed_timestamp course }
        ensures fits { result ≤ Limits.TIMESTAMP }
        ensures order { self.now.start ≤ result }
    {
        match self.unconfirmed.front() {
            Some(first) => first.before,
            None => self.last_sent,
        }
    }

    /// Saves the session's number, how far its events are confirmed, and the start as it was. A refused save leaves
    /// the session as it is. The store then holds what it held or the new record; after `OutOfMemory`, what it held.
    pub fn save<S: ProgressStore>(&self, store: &mut S) -> Result<(), StoreError>
        ensures saved { (course : Course) → StandsFor self.now course
            → OnOk result (S.held store.new ≡ Some (progress_of course)) }
        ensures refused { (course : Course) → StandsFor self.now course
            → OnErr result ((S.held store.new ≡ S.held store.old)
            ⊎ (S.held store.new ≡ Some (progress_of course))) }
        ensures without_memory { result ≡ Err StoreError.OutOfMemory
            → S.held store.new ≡ S.held store.old }
        ensures refusals { IfErr result (MayRefuseSave (S.failed store.old) (S.failed store.new)) }
        ensures uncounted { OnOk result (S.failed store.new ≡ S.failed store.old) }
        ensures risked { IfErr result (IsRisked (S.risks store.old)) }
        ensures honest { S.is_honest store.new ≡ S.is_honest store.old }
        ensures same_risks { S.risks store.new ≡ S.risks store.old }
    {
        store.save(Progress::new(self.number, self.confirmed(), self.start))
    }

    /// Whether the end mark is confirmed.
    pub fn done(&self) -> bool
        ensures { (course : Course) → StandsFor self.now course → result ≡ is_done course }
    {
        self.ended && self.unconfirmed.is_empty()
    }

    /// Whether the session knows that no further event follows.
    pub fn is_complete(&self) -> bool
        ensures { (course : Course) → StandsFor self.now course → result ≡ course.complete }
    {
        self.complete
    }

    /// Whether the end mark was sent.
    pub fn has_ended(&self) -> bool
        ensures { (course : Course) → StandsFor self.now course → result ≡ has_ended course }
    {
        self.ended
    }

    /// The timestamp of the event that was offered last, or the base; in nanoseconds.
    pub fn last_offered(&self) -> u64
        ensures { (course : Course) → StandsFor self.now course
            → result ≡ last_timestamp_from course.base course.offered }
    {
        self.last
    }

    /// How many events were offered and aren't sent yet.
    pub fn unsent_len(&self) -> usize
        ensures { (course : Course) → StandsFor self.now course → result ≡ length (unsent course) }
    {
        self.unsent.len()
    }

    /// The oldest event that was offered and isn't sent, if there is one.
    pub fn next_event(&self) -> Option<&Event>
        ensures { (course : Course) → StandsFor self.now course
            → option_copied result ≡ slice_get (unsent course) 0 }
    {
        self.unsent.front()
    }

    /// How many tags wait for their confirms.
    pub fn waiting_len(&self) -> usize
        ensures { (course : Course) → StandsFor self.now course
            → result ≡ length (unconfirmed course) }
    {
        self.unconfirmed.len()
    }

    /// The first of the tags that wait for their confirms, if one waits.
    pub fn first_waiting(&self) -> Option<u64>
        ensures { (course : Course) → StandsFor self.now course
            → result ≡ slice_get (unconfirmed course) 0 }
    {
        let first = self.unconfirmed.front()?;
        Some(first.tag)
    }

    /// Whether the window is full: as many tags wait for their confirms as may wait at a time.
    pub fn is_full(&self) -> bool
        ensures { (course : Course) → StandsFor self.now course
            → result ≡ (length (unconfirmed course) == course.window) }
    {
        self.unconfirmed.is_full()
    }

    /// Whether the end mark comes next if no event is unsent.
    fn ends(&self) -> bool
        ensures { result ≡ ends self.now }
    {
        self.complete && !self.ended && self.unconfirmed.is_empty()
    }

    fn is_sending(&self) -> bool
        ensures { result ≡ is_some (packet_of self.now) }
    {
        self.sent == 0 || !self.unsent.is_empty() || self.ends()
    }

    /// The packet to send next, if there is one. The session doesn't change.
    fn packet(&self, alloc: Global) -> Result<Option<Packet>, AllocError>
        ensures packet { IfOk result (λ packet. packet ≡ packet_of self.now) }
        ensures memory { OnErr result (IsTrue (has_event (packet_of self.now))) }
    {
        if self.sent == 0 {
            return Ok(Some(Packet::Connect {
                session: self.number,
            }));
        }
        let item = match self.unsent.front() {
            Some(event) => Item::Event(Message::of(alloc, event)?),
            None if self.ends() => Item::EndMark,
            None => return Ok(None),
        };
        let tag = self.sent;
        Ok(Some(Packet::Publish {
            session: self.number,
            tag,
            item,
        }))
    }

    /// Marks the next packet as sent, if there is one.
    fn advance(&mut self)
        ensures { self.new ≡ advanced self.old }
    {
        let ends = self.ends();
        if self.sent == 0 {
            self.sent = 1;
        } else if let Some(event) = self.unsent.pop_front() {
            self.unconfirmed.push_back(Unconfirmed {
                tag: self.sent,
                before: self.last_sent,
            });
            self.last_sent = event.timestamp;
            self.sent += 1;
        } else if ends {
            self.unconfirmed.push_back(Unconfirmed {
                tag: self.sent,
                before: self.last_sent,
            });
            self.ended = true;
            self.sent += 1;
        }
    }
}
