//! The items of a feed, found by name.

ghost use Rattle.std.specs.Prelude.{◌≡◌, ◌∷◌, IfOk, List, OnOk};
ghost use Rattle.cdc_types.specs.declared.events.Event.{Event as SomeEvent};
ghost use Rattle.cdc_match.specs.Queue.{feed};
ghost use Rattle.cdc_deliveries.specs.Feeds.{placed};
ghost use Rattle.cdc_deliveries.specs.Indexes.{Indexes, IsIndexOf};

use cdc_log::EventLog;
use cdc_match::Binding;
use cdc_message::headers_of;
use cdc_types::Event;
use cdc_world::ItemName;
use indexmap::IndexMap;
use std::alloc::{AllocError, Global};

/// An item of a feed, and what comes before it.
#[derive(Clone, Copy, Debug, PartialEq, Eq)]
pub struct Placed {
    /// The timestamp of the event before it in the feed, in nanoseconds; 0 if there is none.
    pub previous: u64,
    /// The event. `None` is the end mark.
    pub event: Option<Event>,
}

/// The events of a binding's feed by their timestamps.
#[derive(Drop)]
pub(crate) struct FeedIndex {
    events: IndexMap<u64, Placed>,
    /// The timestamp of the last event; 0 if there is none.
    last: u64,
}

impl FeedIndex {
    /// Indexes the events of a log that a binding takes. An error means out of memory.
    pub(crate) fn new(
        alloc: Global,
        log: &EventLog,
        binding: &Binding,
    ) -> Result<FeedIndex, AllocError>
        ensures { IfOk result (λ index. IsIndexOf index (feed log.now.events binding.now)) }
    {
        let mut index = FeedIndex {
            events: IndexMap::new(alloc),
            last: 0,
        };
        for place in 0..log.len() {
            if let Some(event) = log.get(place) {
                index.add(binding, event)?;
            }
        }
        Ok(index)
    }

    /// Adds an event, if the binding takes it.
    fn add(&mut self, binding: &Binding, event: &Event) -> Result<(), AllocError>
        ensures { OnOk result ((later : List SomeEvent) → (fed : List SomeEvent)
            → Indexes self.old (feed (event.now ∷ later) binding.now) fed
            → Indexes self.new (feed later binding.now) fed) }
    {
        if binding.matches(&headers_of(event)) {
            self.push(event)
        } else {
            Ok(())
        }
    }

    /// Adds the next event of the feed.
    fn push(&mut self, event: &Event) -> Result<(), AllocError>
        ensures { OnOk result ((later : List SomeEvent) → (fed : List SomeEvent)
            → Indexes self.old (event.now ∷ later) fed → Indexes self.new later fed) }
    {
        let timestamp = event.timestamp;
        if self.events.contains_key(&timestamp) {
            self.last = timestamp;
            return Ok(());
        }
        let placed = Placed {
            previous: self.last,
            event: Some(*event),
        };
        self.events.insert(timestamp, placed)?;
        self.last = timestamp;
        Ok(())
    }

    /// The item of this name, if the feed has it.
    pub(crate) fn find(&self, item: ItemName) -> Option<Placed>
        ensures { (fed : List SomeEvent) → IsIndexOf self.now fed → result ≡ placed fed item }
    {
        match item {
            ItemName::Event(timestamp) => self.events.get(&timestamp).copied(),
            ItemName::EndMark => Some(Placed {
                previous: self.last,
                event: None,
            }),
        }
    }
}
