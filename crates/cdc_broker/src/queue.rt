//! One queue: the items of a shared list that belong to its binding.

ghost use Rattle.std.specs.Prelude.{◌≡◌, ◌+◌, ◌-◌, ◌^◌, ◌<◌, ◌≤◌, IsSome, [], max, min, nat_lt, not, length, slice_get, IfOk, OnOk, OnErr, if◌then◌else◌};
ghost use Rattle.cdc_match.specs.Queue.{queue, takes_item};
ghost use Rattle.cdc_broker.specs.Queues.{acknowledged, delivered_event, empty_queue, is_unknown, next_delivery, rewound_queue, with_delivery};
ghost use Rattle.cdc_broker.specs.Kept.{counting, queue_state, IsInOrder, IsLeft, IsMark};

use crate::backlog::Backlog;
use cdc_match::Binding;
use cdc_message::{Delivery, Item};
use std::alloc::{AllocError, Global};

/// How far a queue has come, as an index of the shared list and as a position of the queue.
#[derive(Clone, Copy)]
pub(crate) struct Mark {
    /// The number of items of the list before the mark.
    pub(crate) place: usize,
    /// How many of these belong to the queue. It is the position of the last of them, or 0.
    pub(crate) position: u64,
}

/// The items that belong to a binding, at positions from 1 on. They are stored in the list that all queues share.
#[derive(Drop)]
pub(crate) struct Queue {
    pub(crate) binding: Binding,
    /// The number of items that belong to the queue.
    pub(crate) len: u64,
    /// The greatest position that was delivered.
    pub(crate) delivered: u64,
    /// All items before this mark are acknowledged.
    pub(crate) acked: Mark,
    /// The next item to deliver is the queue's first one after this mark.
    pub(crate) cursor: Mark,
}

impl Mark {
    /// The mark before the first item.
    const START: Mark = Mark {
        place: 0,
        position: 0,
    };
}

impl Queue {
    /// An empty queue.
    pub(crate) fn new(binding: Binding) -> Queue
        ensures state { queue_state [] result ≡ empty_queue binding }
        ensures in_order { IsInOrder [] result }
    {
        Queue {
            binding,
            len: 0,
            delivered: 0,
            acked: Mark::START,
            cursor: Mark::START,
        }
    }

    /// Whether the item belongs to the queue. An end mark belongs to every queue.
    fn wants(&self, item: &Item) -> bool
        ensures { result ≡ takes_item self.now.binding item.now }
    {
        match item {
            Item::Event(message) => self.binding.matches(&message.headers()),
            Item::EndMark => true,
        }
    }

    /// Counts an item that is added to the back of the list, if it belongs to the queue. `len` is the list's length
    /// with this item. If the item belongs only to other queues, and this queue has acknowledged all its own, both
    /// marks move to the end of the list: the queue then holds back no item.
    pub(crate) fn count(&mut self, item: &Item, len: usize)
        requires { self.old.len < 2 ^ 64 - 1 }
        ensures { self.new ≡ counting item.now len self.old }
    {
        if self.wants(item) {
            self.len += 1;
        } else if self.acked.position == self.len {
            self.acked.place = len;
            self.cursor.place = len;
        }
    }

    /// Whether the queue has an item after the cursor.
    pub(crate) fn has_next(&self) -> bool
        ensures { result ≡ nat_lt self.now.cursor.position self.now.len }
    {
        self.cursor.position < self.len
    }

    /// The mark right after the queue's next item after `mark`. There is such an item.
    fn past_next(&self, accepted: &Backlog, mark: Mark) -> Mark
        requires here { IsMark accepted.now.items self.now.binding mark }
        requires left { accepted.now.gone ≤ mark.place }
        requires further { mark.position < length (queue accepted.now.items self.now.binding) }
        ensures mark { IsMark accepted.now.items self.now.binding result }
        ensures position { result.position ≡ mark.position + 1 }
        ensures past { mark.place < result.place }
        ensures item { slice_get accepted.now.items (result.place - 1)
            ≡ slice_get (queue accepted.now.items self.now.binding) mark.position }
    {
        let mut place = mark.place;
        while !self.wants(accepted.item(place)) {
            place += 1;
        }
        Mark {
            place: place + 1,
            position: mark.position + 1,
        }
    }

    /// Delivers a copy of the item after the cursor, and advances the cursor. Returns `None` if no item follows the
    /// cursor. If memory runs out, nothing changes.
    pub(crate) fn deliver(
        &mut self,
        alloc: Global,
        accepted: &Backlog,
    ) -> Result<Option<Delivery>, AllocError>
        requires in_order { IsInOrder accepted.now.items self.old }
        requires left { IsLeft accepted.now.gone self.old }
        ensures answer { IfOk result (λ delivery. delivery
            ≡ next_delivery (queue_state accepted.now.items self.old)) }
        ensures ok { OnOk result (queue_state accepted.now.items self.new
            ≡ with_delivery (next_delivery (queue_state accepted.now.items self.old))
            (queue_state accepted.now.items self.old)) }
        ensures err { OnErr result (self.new ≡ self.old) }
        ensures memory { OnErr result
            (IsSome (delivered_event (next_delivery (queue_state accepted.now.items self.old)))) }
        ensures in_order { IsInOrder accepted.now.items self.new }
        ensures left { IsLeft accepted.now.gone self.new }
    {
        if !self.has_next() {
            return Ok(None);
        }
        let next = self.past_next(accepted, self.cursor);
        let item = accepted.item(next.place - 1).try_copy(alloc)?;
        self.delivered = self.delivered.max(next.position);
        self.cursor = next;
        Ok(Some(Delivery {
            position: next.position,
            item,
        }))
    }

    /// The mark right after the item at this position, or a later one if more items are acknowledged. If no item of the
    /// queue follows, the mark is at the end of the list.
    fn acked_up_to(&self, accepted: &Backlog, position: u64) -> Mark
        requires in_order { IsInOrder accepted.now.items self.now }
        requires left { IsLeft accepted.now.gone self.now }
        requires there { position ≤ self.now.len }
        ensures mark { IsMark accepted.now.items self.now.binding result }
        ensures position { result.position ≡ max self.now.acked.position position }
        ensures left { accepted.now.gone ≤ result.place }
        ensures at_end { result.position ≡ self.now.len → result.place ≡ length accepted.now.items }
    {
        let mut mark = self.acked;
        while mark.position < position {
            mark = self.past_next(accepted, mark);
        }
        if mark.position == self.len {
            mark.place = accepted.len();
        }
        mark
    }

    /// Acknowledges all positions up to this one. Returns false, and changes nothing, if the position wasn't
    /// delivered.
    pub(crate) fn ack(&mut self, accepted: &Backlog, position: u64) -> bool
        requires in_order { IsInOrder accepted.now.items self.old }
        requires left { IsLeft accepted.now.gone self.old }
        ensures answer { result ≡ not (is_unknown (queue_state accepted.now.items self.old) position) }
        ensures state { queue_state accepted.now.items self.new
            ≡ (if result then acknowledged position (queue_state accepted.now.items self.old)
            else queue_state accepted.now.items self.old) }
        ensures in_order { IsInOrder accepted.now.items self.new }
        ensures left { IsLeft accepted.now.gone self.new }
    {
        if position == 0 || position > self.delivered {
            return false;
        }
        let acked = self.acked_up_to(accepted, position);
        self.acked = acked;
        if self.cursor.position <= acked.position {
            self.cursor = acked;
        }
        true
    }

    /// The number of items at the front of the list that the queue never asks for again.
    pub(crate) fn done_with(&self) -> usize
        ensures { result ≡ min self.now.acked.place self.now.cursor.place }
    {
        self.acked.place.min(self.cursor.place)
    }

    /// Rewinds to the first unacknowledged position.
    pub(crate) fn rewind(&mut self)
        ensures { self.new ≡ record self.old { cursor = self.old.acked } }
    {
        self.cursor = self.acked;
    }
}
