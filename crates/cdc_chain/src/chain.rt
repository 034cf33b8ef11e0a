//! What is kept of a stream that is chained: the last event taken, and the last one of each queue.

ghost use Rattle.std.specs.Prelude.{◌≡◌, ◌≤◌, ◌++◌, [], List, IfOk, OnOk, false, length, map, string_bytes};
ghost use Rattle.cdc_match.specs.Arguments.{Arguments};
ghost use Rattle.std.specs.Vec.{vec_capacity};
ghost use Rattle.cdc_queue_lines.specs.Steps.{found_after, last_after};
ghost use Rattle.cdc_chain.specs.Chains.{begins, made_of, next_chain, outcome_of};
ghost use Rattle.cdc_chain.specs.Lines.{event_lines, lines_text};
ghost use Rattle.cdc_follow.specs.declared.entries.Content.TheVariants as content;

use crate::lines::{push_ends, push_event};
use cdc_follow::Content;
use cdc_match::Binding;
use cdc_message::headers_of;
use cdc_queue_lines::Predecessor;
use cdc_types::{Event, Limits};
use std::alloc::{AllocError, Global};
use std::marker::Model;

/// What becomes of an entry.
#[derive(Clone, Copy, Debug, PartialEq, Eq)]
pub enum Chaining {
    /// The event is later than all before it: each queue that takes it gets its line.
    Taken,
    /// The event isn't later than the last one taken, or the end was received before. It counts as a duplicate.
    Duplicate,
    /// The end is received: each queue gets the line of its end.
    Ended,
    /// Nothing changes: the event is later than the last one, and the end was received before.
    AfterEnd,
    /// Nothing changes: the event's timestamp is above the greatest one of a ledger.
    OutOfRange,
}

/// What is kept of a stream that is chained.
#[derive(Drop)]
pub struct Chain {
    /// The timestamp of the last event taken, in nanoseconds; 0 if none was.
    last: u64,
    /// Whether the end was received.
    ended: bool,
    /// The timestamp of the last event of each queue, in nanoseconds; 0 if it has none.
    places: Vec<u64>,
    /// How many duplicates were skipped, at most 2^64-1.
    duplicates: u64,
    /// The queues that took the last event. There is room for all queues.
    found: Vec<Predecessor>,
}

impl Model for Chain {
    ghost use Rattle.std.specs.Prelude.{◌≤◌, length};
    ghost use Rattle.std.specs.Vec.{vec_capacity};
    ghost use Rattle.cdc_chain.specs.Chains.{ChainState};

    ghost Value = { ChainState };

    ghost view = { λ c. record {
      last = c.last;
      ended = c.ended;
      places = c.places.items;
      duplicates = c.duplicates;
    } };

    ghost invariant = { λ c. length c.places.items ≤ vec_capacity c.found };
}

impl Chain {
    /// Begins before the first event, with the queues of these bindings. The one error is out of memory.
    pub fn new(alloc: Global, bindings: &[Binding]) -> Result<Chain, AllocError>
        ensures { IfOk result (λ chain. chain ≡ begins bindings.now) }
    {
        let places = zeros(alloc, bindings)?;
        Chain::at(alloc, 0, false, places)
    }

    /// Goes on after the event with the timestamp `last`, or after the end that followed it, with the timestamp of the
    /// last event of each queue. No duplicate was skipped yet. The one error is out of memory.
    pub fn at(alloc: Global, last: u64, ended: bool, places: Vec<u64>) -> Result<Chain, AllocError>
        ensures { IfOk result (λ chain. chain
            ≡ record { last = last; ended = ended; places = places.items; duplicates = 0 }) }
    {
        let found = Vec::with_capacity(alloc, places.len())?;
        Ok(Chain {
            last,
            ended,
            places,
            duplicates: 0,
            found,
        })
    }

    /// The timestamp of the last event taken, in nanoseconds; 0 if none was.
    pub fn last(&self) -> u64
        ensures { result ≡ self.now.last }
    {
        self.last
    }

    /// Whether the end was received.
    pub fn ended(&self) -> bool
        ensures { result ≡ self.now.ended }
    {
        self.ended
    }

    /// The timestamp of the last event of each queue, in nanoseconds; 0 if it has none.
    pub fn places(&self) -> &[u64]
        ensures { result.now ≡ self.now.places }
    {
        self.places.as_slice()
    }

    /// How many duplicates were skipped, at most 2^64-1.
    pub fn duplicates(&self) -> u64
        ensures { result ≡ self.now.duplicates }
    {
        self.duplicates
    }

    /// Takes an entry, and adds the lines that it makes. The bindings are those of `new`, each time. The one error is
    /// out of memory; a part of the lines may be added then, and the chain is of no further use.
    pub fn take(
        &mut self,
        alloc: Global,
        bindings: &[Binding],
        content: &Content,
        text: &mut String,
    ) -> Result<Chaining, AllocError>
        requires { length self.old.places ≡ length bindings.now }
        ensures answer { IfOk result (λ answer. answer ≡ outcome_of self.old content.now) }
        ensures state { OnOk result (self.new ≡ next_chain bindings.now self.old content.now) }
        ensures text { OnOk result (string_bytes text.new
            ≡ string_bytes text.old ++ lines_text (made_of bindings.now self.old content.now).lines) }
        ensures many { length self.new.places ≡ length self.old.places }
    {
        match content {
            Content::Event(event) => self.take_event(alloc, bindings, event, text),
            Content::End => self.take_end(text),
        }
    }

    /// Takes an event.
    fn take_event(
        &mut self,
        alloc: Global,
        bindings: &[Binding],
        event: &Event,
        text: &mut String,
    ) -> Result<Chaining, AllocError>
        requires { length self.old.places ≡ length bindings.now }
        ensures answer { IfOk result (λ answer. answer ≡ outcome_of self.old (content.Event event.now)) }
        ensures state { OnOk result (self.new ≡ next_chain bindings.now self.old (content.Event event.now)) }
        ensures text { OnOk result (string_bytes text.new
            ≡ string_bytes text.old ++ lines_text (made_of bindings.now self.old (content.Event event.now)).lines) }
        ensures many { length self.new.places ≡ length self.old.places }
    {
        if event.timestamp <= self.last {
            self.duplicates = self.duplicates.saturating_add(1);
            return Ok(Chaining::Duplicate);
        }
        if event.timestamp > Limits::TIMESTAMP {
            return Ok(Chaining::OutOfRange);
        }
        if self.ended {
            return Ok(Chaining::AfterEnd);
        }
        self.add_event(alloc, bindings, event, text)?;
        Ok(Chaining::Taken)
    }

    /// Adds the lines of an event that is later than all before it, and makes it the last one.
    fn add_event(
        &mut self,
        alloc: Global,
        bindings: &[Binding],
        event: &Event,
        text: &mut String,
    ) -> Result<(), AllocError>
        requires { length self.old.places ≡ length bindings.now }
        ensures state { OnOk result (self.new ≡ record self.old {
          last = event.now.timestamp;
          places = last_after event.now bindings.now self.old.places;
        }) }
        ensures text { OnOk result (string_bytes text.new ≡ string_bytes text.old
            ++ lines_text (event_lines event.now (found_after event.now 1 bindings.now self.old.places))) }
        ensures many { length self.new.places ≡ length self.old.places }
    {
        let Chain {
            last,
            places,
            found,
            ..
        } = self;
        found.clear();
        find_queues(places, found, bindings, event);
        *last = event.timestamp;
        if found.is_empty() {
            return Ok(());
        }
        push_event(alloc, text, found.as_slice(), event)
    }

    /// Takes the end.
    fn take_end(&mut self, text: &mut String) -> Result<Chaining, AllocError>
        ensures answer { IfOk result (λ answer. answer ≡ outcome_of self.old content.End) }
        ensures state { OnOk result ((bindings : List Arguments) → self.new ≡ next_chain bindings self.old
            content.End) }
        ensures text { OnOk result ((bindings : List Arguments) → string_bytes text.new
            ≡ string_bytes text.old ++ lines_text (made_of bindings self.old content.End).lines) }
        ensures many { length self.new.places ≡ length self.old.places }
    {
        if self.ended {
            self.duplicates = self.duplicates.saturating_add(1);
            return Ok(Chaining::Duplicate);
        }
        self.ended = true;
        push_ends(text, self.places.as_slice())?;
        Ok(Chaining::Ended)
    }
}

/// A 0 for each binding.
fn zeros(alloc: Global, bindings: &[Binding]) -> Result<Vec<u64>, AllocError>
    ensures { IfOk result (λ zeros. zeros.items ≡ map (λ _. 0) bindings.now) }
{
    let mut zeros = Vec::with_capacity(alloc, bindings.len())?;
    for _ in bindings {
        zeros.push_reserved(0);
    }
    Ok(zeros)
}

/// Finds the queues that take an event, each with the timestamp of its last event before, and makes this one its last.
fn find_queues(
    places: &mut Vec<u64>,
    found: &mut Vec<Predecessor>,
    bindings: &[Binding],
    event: &Event,
)
    requires one_each { length places.old.items ≡ length bindings.now }
    requires none { found.old.items ≡ [] }
    requires room { length bindings.now ≤ vec_capacity found.old }
    ensures places { places.new.items ≡ last_after event.now bindings.now places.old.items }
    ensures found { found.new.items ≡ found_after event.now 1 bindings.now places.old.items }
    ensures capacity { vec_capacity found.new ≡ vec_capacity found.old }
{
    let headers = headers_of(event);
    for place in 0..bindings.len() {
        if bindings[place].matches(&headers) {
            let previous = places[place];
            found.push_reserved(Predecessor {
                queue: place + 1,
                previous,
            });
            places[place] = event.timestamp;
        }
    }
}
