//! The log, kept in segments of fixed size.

ghost use Rattle.std.specs.Prelude.{◌≡◌, slice_get};
ghost use Rattle.std.specs.Option.{option_copied};

use crate::segment::{SEGMENT, Segment};
use cdc_types::Event;
use std::alloc::{AllocError, Global};
use std::marker::Model;

// The maximum number of segments. They have room for 2^63 events.
const MOST_SEGMENTS: usize = 1 << 53;

/// The events of a ledger in timestamp order. Contracts see the list of events and the number of events that can be
/// pushed without allocating.
#[derive(Drop)]
pub struct EventLog {
    alloc: Global,
    /// Every segment before the one that is filled next holds 1,024 events; every segment after it is empty.
    segments: Vec<Segment>,
    len: usize,
}

impl Model for EventLog {
    ghost use Rattle.std.specs.Prelude.{◌-◌, ◌*◌, length};
    ghost use Rattle.cdc_log.specs.Log.{Log};
    ghost use Rattle.cdc_log.specs.Segments.{joined, IsKept};

    ghost Value = { Log };

    ghost view = { λ log. record {
      events = joined log.segments.items;
      room = 1024 * length log.segments.items - log.len;
    } };

    ghost invariant = { λ log. IsKept log.segments.items log.len };
}

impl EventLog {
    ghost use Rattle.std.specs.Prelude.{◌≡◌, ◌+◌, ◌<◌, ◌≤◌, [], ◌∷◌, ◌++◌, ◌-◌, length, drop, slice_get, take, is_ok, Some, IfOk, OnOk, OnErr, ◌==◌, if◌then◌else◌};
    ghost use Rattle.std.specs.Option.{option_copied};
    ghost use Rattle.cdc_types.specs.Timestamps.{last_timestamp};
    ghost use Rattle.cdc_log.specs.Log.{events_after, RiseFrom};

    /// An empty log with no reserved memory.
    pub fn new(alloc: Global) -> EventLog
        ensures { result.events ≡ [] }
    {
        EventLog {
            alloc,
            segments: Vec::new(alloc),
            len: 0,
        }
    }

    /// Reserves memory for `additional` more events. An error means out of memory and can happen only if the reserved
    /// memory is too small. The events never change.
    pub fn reserve(&mut self, additional: usize) -> Result<(), AllocError>
        ensures events { self.new.events ≡ self.old.events }
        ensures room { OnOk result (additional ≤ self.new.room) }
        ensures kept { self.old.room ≤ self.new.room }
        ensures exhausted { OnErr result (self.old.room < additional) }
    {
        if additional <= self.room() {
            return Ok(());
        }
        // An impossible request fails here, before any segment is allocated.
        self.segments.reserve(additional / SEGMENT)?;
        while self.room() < additional {
            self.add_segment()?;
        }
        Ok(())
    }

    // Allocates one more segment. Fails as out of memory if the number of events could overflow.
    fn add_segment(&mut self) -> Result<(), AllocError>
        ensures events { self.new.events ≡ self.old.events }
        ensures room { self.new.room ≡ self.old.room + (if is_ok result then 1024 else 0) }
    {
        if self.segments.len() >= MOST_SEGMENTS {
            return Err(AllocError);
        }
        self.segments.push(Segment::new(self.alloc)?)?;
        Ok(())
    }

    /// The number of events that can be pushed without allocating.
    pub fn room(&self) -> usize
        ensures { result ≡ self.now.room }
    {
        self.segments.len() * SEGMENT - self.len
    }

    /// Appends an event. It can't fail: the caller has reserved memory for it.
    pub fn push(&mut self, event: Event)
        requires room { 0 < self.old.room }
        requires later { last_timestamp self.old.events < event.timestamp }
        ensures events { self.new.events ≡ self.old.events ++ event ∷ [] }
        ensures last { last_timestamp self.new.events ≡ event.timestamp }
        ensures room { self.new.room + 1 ≡ self.old.room }
    {
        self.segments[self.len / SEGMENT].push(event);
        self.len += 1;
    }

    /// The event at this index, from 0. `None` past the end.
    pub fn get(&self, place: usize) -> Option<&Event>
        ensures { option_copied result ≡ slice_get self.now.events place }
    {
        let segment = nth(&self.segments, place / SEGMENT)?;
        segment.get(place % SEGMENT)
    }

    // The event at an index that is in range.
    fn event(&self, place: usize) -> &Event
        requires { place < length self.now.events }
        ensures { slice_get self.now.events place ≡ Some result.now }
    {
        self.get(place).unwrap()
    }

    /// The timestamp of the last event, or 0 if there is none.
    pub fn last_timestamp(&self) -> u64
        ensures last { result ≡ last_timestamp self.now.events }
        ensures rising { RiseFrom 0 self.now.events }
    {
        match self.len.checked_sub(1) {
            Some(last) => self.event(last).timestamp,
            None => 0,
        }
    }

    /// The first `limit` events with a timestamp above `timestamp`, in order. An error means out of memory for the
    /// list.
    pub fn read_after(
        &self,
        alloc: Global,
        timestamp: u64,
        limit: usize,
    ) -> Result<Vec<Event>, AllocError>
        ensures { IfOk result (λ read.
            read.items ≡ take limit (events_after timestamp self.now.events)) }
    {
        let first = self.first_after(timestamp);
        self.copy(alloc, first, first + limit.min(self.len - first))
    }

    /// The index, from 0, of the first event with a timestamp above `timestamp`. It is the number of events that
    /// aren't later, and the log's length if none is.
    pub fn first_after(&self, timestamp: u64) -> usize
        ensures bound { result ≤ length self.now.events }
        ensures parts { drop result self.now.events ≡ events_after timestamp self.now.events }
    {
        // It is in the last segment that begins by `timestamp`, or right after that segment.
        let begun = self
            .segments
            .partition_point(|segment| segment.begins_by(timestamp));
        match begun.checked_sub(1) {
            Some(last) => last * SEGMENT + self.segments[last].up_to(timestamp),
            None => 0,
        }
    }

    // The events with an index from `first` up to but excluding `end`.
    fn copy(&self, alloc: Global, first: usize, end: usize) -> Result<Vec<Event>, AllocError>
        requires order { first ≤ end }
        requires within { end ≤ length self.now.events }
        ensures { IfOk result (λ read. read.items ≡ take (end - first) (drop first self.now.events)) }
    {
        let mut read = Vec::with_capacity(alloc, end - first)?;
        for place in first..end {
            read.push_reserved(*self.event(place));
        }
        Ok(read)
    }

    pub fn len(&self) -> usize
        ensures { result ≡ length self.now.events }
    {
        self.len
    }

    pub fn is_empty(&self) -> bool
        ensures { result ≡ (length self.now.events == 0) }
    {
        self.len == 0
    }
}

fn nth(segments: &[Segment], place: usize) -> Option<&Segment>
    ensures { option_copied result ≡ slice_get segments.now place }
{
    segments.get(place)
}
