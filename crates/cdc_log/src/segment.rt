//! A segment: a part of the log with a fixed capacity.

ghost use Rattle.std.specs.Prelude.{◌≡◌, ◌++◌, ◌∷◌, [], ◌<◌, ◌≤◌, drop, length, slice_get, IfOk};
ghost use Rattle.std.specs.Option.{option_copied};
ghost use Rattle.cdc_log.specs.Log.{events_after, RiseFrom};
ghost use Rattle.cdc_log.specs.Segments.{begins_by};

use cdc_types::Event;
use std::alloc::{AllocError, Global};
use std::marker::Model;

/// The capacity of a segment, in events.
pub(crate) const SEGMENT: usize = 1_024;

/// Up to 1,024 events. Creating a segment allocates memory for all of them. Contracts see the list of events.
#[derive(Drop)]
pub(crate) struct Segment {
    events: Vec<Event>,
}

impl Model for Segment {
    ghost use Rattle.std.specs.Prelude.{◌≡◌, List};
    ghost use Rattle.std.specs.Vec.{vec_capacity};
    ghost use Rattle.cdc_types.specs.declared.events.Event.{Event as TheEvent};

    ghost Value = { List TheEvent };

    ghost view = { λ segment. segment.events.items };

    ghost invariant = { λ segment. vec_capacity segment.events ≡ 1024 };
}

impl Segment {
    /// An empty segment. An error means out of memory.
    pub(crate) fn new(alloc: Global) -> Result<Segment, AllocError>
        ensures { IfOk result (λ segment. segment ≡ []) }
    {
        Ok(Segment {
            events: Vec::with_capacity(alloc, SEGMENT)?,
        })
    }

    /// Appends an event. The segment isn't full.
    pub(crate) fn push(&mut self, event: Event)
        requires { length self.old < 1024 }
        ensures { self.new ≡ self.old ++ event ∷ [] }
    {
        self.events.push_reserved(event);
    }

    /// The event at this index of the segment. `None` past the end.
    pub(crate) fn get(&self, place: usize) -> Option<&Event>
        ensures { option_copied result ≡ slice_get self.now place }
    {
        self.events.get(place)
    }

    /// Whether the first event is no later than this timestamp. False if the segment is empty.
    pub(crate) fn begins_by(&self, timestamp: u64) -> bool
        ensures { result ≡ begins_by timestamp self.now }
    {
        match self.events.first() {
            Some(event) => event.timestamp <= timestamp,
            None => false,
        }
    }

    /// The number of events that are no later than this timestamp.
    pub(crate) fn up_to(&self, timestamp: u64) -> usize
        requires { RiseFrom 0 self.now }
        ensures bound { result ≤ length self.now }
        ensures parts { drop result self.now ≡ events_after timestamp self.now }
    {
        first_after(&self.events, timestamp)
    }
}

// The index of the first event that is later than this timestamp. The events are in timestamp order.
fn first_after(events: &[Event], timestamp: u64) -> usize
    requires { RiseFrom 0 events.now }
    ensures bound { result ≤ length events.now }
    ensures parts { drop result events.now ≡ events_after timestamp events.now }
{
    events.partition_point(|event| event.timestamp <= timestamp)
}
