//! What comes before an event in each queue that takes it.

ghost use Rattle.std.specs.Prelude.{◌≡◌, ◌≤◌, [], IfOk, length, map};
ghost use Rattle.std.specs.Vec.{vec_capacity};
ghost use Rattle.cdc_queue_lines.specs.Steps.{found_after, last_after};

use cdc_match::Binding;
use cdc_message::headers_of;
use cdc_types::Event;
use std::alloc::{AllocError, Global};
use std::marker::Model;

/// A queue that takes an event, and what comes before the event there.
#[derive(Clone, Copy, Debug, PartialEq, Eq)]
pub struct Predecessor {
    /// The number of the queue's subscriber, from 1.
    pub queue: usize,
    /// The timestamp of the event before this one in the queue, in nanoseconds; 0 if there is none.
    pub previous: u64,
}

/// The timestamp of the last event of each queue, while the events come one after another. Contracts see these
/// timestamps, and what was found for the last event.
#[derive(Drop)]
pub struct Predecessors {
    /// A timestamp for each queue, 0 if the queue has no event yet.
    last: Vec<u64>,
    /// The queues that took the last event. There is room for all queues.
    found: Vec<Predecessor>,
}

impl Model for Predecessors {
    ghost use Rattle.std.specs.Prelude.{◌≤◌, length};
    ghost use Rattle.std.specs.Vec.{vec_capacity};
    ghost use Rattle.cdc_queue_lines.specs.Predecessors.{PredecessorState};

    ghost Value = { PredecessorState };

    ghost view = { λ p. record { last = p.last.items; found = p.found.items } };

    ghost invariant = { λ p. length p.last.items ≤ vec_capacity p.found };
}

impl Predecessors {
    ghost use Rattle.std.specs.Prelude.{◌≡◌, ◌∷◌, ◌++◌, [], List, IfOk, length};
    ghost use Rattle.cdc_types.specs.declared.events.Event.{Event as SomeEvent};
    ghost use Rattle.cdc_queue_lines.specs.Predecessors.{last_timestamps, predecessors};

    /// Begins before the first event, with the queues of these bindings. An error means out of memory; nothing else of
    /// this type needs memory.
    pub fn new(alloc: Global, bindings: &[Binding]) -> Result<Predecessors, AllocError>
        ensures { IfOk result (λ p. p.last ≡ last_timestamps bindings.now []) }
    {
        Ok(Predecessors {
            last: zeros(alloc, bindings)?,
            found: Vec::with_capacity(alloc, bindings.len())?,
        })
    }

    /// Goes on to the next event: `found` are then the queues that take it. The bindings are those of `new`, each time.
    pub fn advance(&mut self, bindings: &[Binding], event: &Event)
        requires { length self.old.last ≡ length bindings.now }
        ensures many { length self.new.last ≡ length self.old.last }
        ensures last { (before : List SomeEvent) → self.old.last ≡ last_timestamps bindings.now before
            → self.new.last ≡ last_timestamps bindings.now (before ++ event.now ∷ []) }
        ensures found { (before : List SomeEvent) → self.old.last ≡ last_timestamps bindings.now before
            → self.new.found ≡ predecessors 1 bindings.now before event.now }
    {
        let Predecessors { last, found } = self;
        found.clear();
        take_event(last, found, bindings, event);
    }

    /// The queues that take the event that `advance` was called with last, by their numbers.
    pub fn found(&self) -> &[Predecessor]
        ensures { result.now ≡ self.now.found }
    {
        &self.found
    }
}

/// A 0 for each binding, with no more memory than that.
fn zeros(alloc: Global, bindings: &[Binding]) -> Result<Vec<u64>, AllocError>
    ensures { IfOk result (λ zeros. zeros.items ≡ map (λ _. 0) bindings.now) }
{
    let mut zeros = Vec::with_capacity(alloc, bindings.len())?;
    for _ in bindings {
        zeros.push_reserved(0);
    }
    Ok(zeros)
}

/// Adds the queues that take an event, and makes it their last one. There is one timestamp for each binding.
fn take_event(
    last: &mut Vec<u64>,
    found: &mut Vec<Predecessor>,
    bindings: &[Binding],
    event: &Event,
)
    requires one_each { length last.old.items ≡ length bindings.now }
    requires none { found.old.items ≡ [] }
    requires room { length bindings.now ≤ vec_capacity found.old }
    ensures last { last.new.items ≡ last_after event.now bindings.now last.old.items }
    ensures found { found.new.items ≡ found_after event.now 1 bindings.now last.old.items }
    ensures capacity { vec_capacity found.new ≡ vec_capacity found.old }
{
    let headers = headers_of(event);
    for place in 0..bindings.len() {
        if bindings[place].matches(&headers) {
            let previous = last[place];
            found.push_reserved(Predecessor {
                queue: place + 1,
                previous,
            });
            last[place] = event.timestamp;
        }
    }
}
