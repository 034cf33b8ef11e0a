//! The subscriber itself.

ghost use Rattle.std.specs.Prelude.{◌≡◌, ◌<◌, false, true, OnOk, OnErr};
ghost use Rattle.std.specs.Io.KnownBytes.{Appends};
ghost use Rattle.cdc_message.specs.OwnBodies.{IsOwnBody};
ghost use Rattle.cdc_message.specs.Reading.{read};
ghost use Rattle.cdc_types.specs.declared.events.Event.{Event};
ghost use Rattle.cdc_subscriber.specs.Book.{has_both};
ghost use Rattle.cdc_subscriber.specs.Lines.{subscriber_text};
ghost use Rattle.cdc_subscriber.specs.Reception.{Reception, nothing, next, next_read, kept_of};
ghost use Rattle.cdc_subscriber.specs.Steps.{next_state, next_state_read, taken};
ghost use Rattle.cdc_subscriber.specs.Answers.{answer_to, event_answer, settled_answer, GivesOrIsOutOfMemory, TakesBody, TakesItem};

use crate::book::Book;
use crate::errors::TakeError;
use crate::printing::{write_accounts, write_subscriber};
use cdc_message::{Delivery, Item, decode};
use cdc_types::Event;
use std::alloc::Global;
use std::io;
use std::io::Write;
use std::marker::Model;

/// A subscriber's answer to an event or an end mark.
#[derive(Clone, Copy, Debug, PartialEq, Eq)]
pub enum Taking {
    /// The event was later than the last one applied, and is applied.
    Applied,
    /// Nothing changes: the event isn't later than the last one applied, or the subscriber has received the end mark.
    Repeat,
    /// The end mark is received: no further event follows.
    Ended,
    /// Nothing changes: the subscriber is closed.
    AfterClose,
}

/// A subscriber. Events may reach it in any order and more than once. It applies those that are later than all before
/// them, and keeps the book of the events applied. After the end mark, or once it is closed, it applies no more.
/// Contracts see the state that its getters return: for any list of items received, this is `kept_of` of that list.
pub struct Subscriber {
    book: Book,
    last: u64,
    applied: u64,
    ended: bool,
    closed: bool,
}

// Written by hand, so that code that drops a subscriber calls this instead of dropping each field itself.
impl Drop for Subscriber {
    fn drop(self) {
        let Subscriber {
            book: _,
            last: _,
            applied: _,
            ended: _,
            closed: _,
        } = self;
    }
}

impl Model for Subscriber {
    ghost use Rattle.cdc_subscriber.specs.SubscriberState.{SubscriberState};

    ghost Value = { SubscriberState };

    ghost view = { λ s. record {
      book = s.book;
      last = s.last;
      applied = s.applied;
      ended = s.ended;
      closed = s.closed;
    } };
}

impl Subscriber {
    /// Creates a subscriber that has received nothing.
    pub fn new(alloc: Global) -> Subscriber
        ensures { result ≡ kept_of nothing }
    {
        Subscriber {
            book: Book::new(alloc),
            last: 0,
            applied: 0,
            ended: false,
            closed: false,
        }
    }

    /// Resumes from a saved book: the timestamp of the last event applied, the number of events applied, and whether
    /// the end mark was received. The subscriber is open.
    pub fn resume(book: Book, last: u64, applied: u64, ended: bool) -> Subscriber
        ensures { result ≡ record {
          book = book;
          last = last;
          applied = applied;
          ended = ended;
          closed = false;
        } }
    {
        Subscriber {
            book,
            last,
            applied,
            ended,
            closed: false,
        }
    }

    /// Takes a delivery from a queue. The only error is that memory runs out, and only an event can cause it, while the
    /// subscriber is neither closed nor past the end mark: an event that is later than the last one applied and has an
    /// account that the book lacks.
    pub fn take(&mut self, alloc: Global, delivery: &Delivery) -> Result<Taking, TakeError>
        ensures answer { TakesItem self.old delivery.now.item result }
        ensures stands { (reception : Reception) → self.old ≡ kept_of reception
            → OnOk result (self.new ≡ kept_of (next reception delivery.now.item)) }
        ensures state { OnOk result (self.new ≡ next_state self.old delivery.now.item) }
        ensures err { OnErr result (self.new ≡ self.old) }
        ensures memory { (event : Event) → delivery.now.item ≡ Item.Event event
            → OnErr result (self.old.last < event.timestamp) }
        ensures known { (event : Event) → delivery.now.item ≡ Item.Event event
            → OnErr result (has_both self.old.book event ≡ false) }
    {
        match &delivery.item {
            Item::Event(message) => self.take_body(alloc, message.body().as_bytes()),
            Item::EndMark => Ok(self.take_end()),
        }
    }

    /// Takes the bytes of a body. A subscriber that is closed or has received the end mark doesn't read them.
    /// Otherwise it fails if the bytes aren't an event or memory runs out. For a body as `encode` writes it, memory can
    /// run out only if the event is later than the last one applied and has an account that the book lacks.
    pub fn take_body(&mut self, alloc: Global, body: &[u8]) -> Result<Taking, TakeError>
        ensures answer { TakesBody self.old (read body.now) result }
        ensures stands { (reception : Reception) → self.old ≡ kept_of reception
            → OnOk result (self.new ≡ kept_of (next_read reception (read body.now))) }
        ensures state { OnOk result (self.new ≡ next_state_read self.old (read body.now)) }
        ensures err { OnErr result (self.new ≡ self.old) }
        ensures memory { (event : Event) → IsOwnBody body.now event → OnErr result (self.old.last < event.timestamp) }
        ensures known { (event : Event) → IsOwnBody body.now event
            → OnErr result (has_both self.old.book event ≡ false) }
    {
        if let Some(answer) = self.settled() {
            return Ok(answer);
        }
        let event = decode(alloc, body)?;
        self.receive(&event)
    }

    /// Takes an event that was read before. The only error is that memory runs out, under the same conditions, and only
    /// for an event that is later than the last one applied and has an account that the book lacks.
    pub fn take_event(&mut self, event: &Event) -> Result<Taking, TakeError>
        ensures answer { TakesItem self.old (Item.Event event.now) result }
        ensures stands { (reception : Reception) → self.old ≡ kept_of reception
            → OnOk result (self.new ≡ kept_of (next reception (Item.Event event.now))) }
        ensures state { OnOk result (self.new ≡ next_state self.old (Item.Event event.now)) }
        ensures err { OnErr result (self.new ≡ self.old) }
        ensures memory { OnErr result (self.old.last < event.now.timestamp) }
        ensures known { OnErr result (has_both self.old.book event.now ≡ false) }
    {
        if let Some(answer) = self.settled() {
            return Ok(answer);
        }
        self.receive(event)
    }

    /// Takes the end mark: no further event follows.
    pub fn take_end(&mut self) -> Taking
        ensures answer { result ≡ answer_to self.old Item.EndMark }
        ensures stands { (reception : Reception) → self.old ≡ kept_of reception
            → self.new ≡ kept_of (next reception Item.EndMark) }
        ensures state { self.new ≡ next_state self.old Item.EndMark }
    {
        if let Some(answer) = self.settled() {
            return answer;
        }
        self.ended = true;
        Taking::Ended
    }

    /// Closes the subscriber: it applies nothing more. Closing it again changes nothing.
    pub fn close(&mut self)
        ensures closes { self.new ≡ record self.old { closed = true } }
        ensures stands { (reception : Reception) → self.old ≡ kept_of reception
            → self.new ≡ kept_of (record reception { closed = true }) }
    {
        self.closed = true;
    }

    pub fn closed(&self) -> bool
        ensures { result ≡ self.now.closed }
    {
        self.closed
    }

    /// Whether the subscriber has received the end mark.
    pub fn ended(&self) -> bool
        ensures { result ≡ self.now.ended }
    {
        self.ended
    }

    /// The timestamp of the last event applied, in nanoseconds; 0 before the first.
    pub fn last(&self) -> u64
        ensures { result ≡ self.now.last }
    {
        self.last
    }

    /// How many events were applied. The count saturates at 2^64-1.
    pub fn applied_count(&self) -> u64
        ensures { result ≡ self.now.applied }
    {
        self.applied
    }

    /// The book of the events applied.
    pub fn book(&self) -> &Book
        ensures { result.now ≡ self.now.book }
    {
        &self.book
    }

    /// Writes the subscriber's line with this number, and one line for each account of its book. After an error some
    /// of the lines may be written.
    pub fn print<W: Write>(&self, writer: &mut W, number: u64) -> io::Result<()>
        ensures { OnOk result (Appends (W.contents writer.old) (W.contents writer.new)
            (subscriber_text number self.now)) }
    {
        write_subscriber(writer, number, self)?;
        write_accounts(writer, &self.book)
    }

    /// The answer to anything once the subscriber is closed or has received the end mark; `None` before that.
    fn settled(&self) -> Option<Taking>
        ensures { result ≡ settled_answer self.now }
    {
        if self.closed {
            Some(Taking::AfterClose)
        } else if self.ended {
            Some(Taking::Repeat)
        } else {
            None
        }
    }

    /// Receives an event, and applies it if it is later than the last one applied.
    fn receive(&mut self, event: &Event) -> Result<Taking, TakeError>
        requires { settled_answer self.old ≡ None }
        ensures answer { GivesOrIsOutOfMemory true
            (Ok (event_answer self.old.last event.now)) result }
        ensures stands { (reception : Reception) → self.old ≡ kept_of reception
            → OnOk result (self.new ≡ kept_of (next reception (Item.Event event.now))) }
        ensures state { OnOk result (self.new ≡ taken self.old (Item.Event event.now)) }
        ensures err { OnErr result (self.new ≡ self.old) }
        ensures memory { OnErr result (self.old.last < event.now.timestamp) }
        ensures known { OnErr result (has_both self.old.book event.now ≡ false) }
    {
        if event.timestamp <= self.last {
            return Ok(Taking::Repeat);
        }
        self.book.apply(event)?;
        self.last = event.timestamp;
        self.applied = self.applied.saturating_add(1);
        Ok(Taking::Applied)
    }
}
