//! The items that a broker has accepted, of which the first ones are let go.

ghost use Rattle.std.specs.Prelude.{◌≡◌, ◌+◌, ◌-◌, ◌^◌, ◌<◌, ◌≤◌, ◌∷◌, ◌++◌, [], length, get_or, max, OnOk};
ghost use Rattle.cdc_broker.specs.Backlogs.{has_half_before, is_full};

use cdc_message::Item;
use std::alloc::{AllocError, Global};
use std::collections::VecDeque;
use std::marker::Model;
use std::snapshot::Snapshot;

/// Items in the order of their arrival. The first ones can be let go: only contracts see them from then on.
pub(crate) struct Backlog {
    /// What was let go. A snapshot has no bytes, so this is a count, and a list for contracts.
    gone: Vec<Snapshot<Item>>,
    /// The items after those.
    left: VecDeque<Item>,
}

impl Drop for Backlog {
    fn drop(self) {
        let Backlog { gone: _, left: _ } = self;
    }
}

impl Model for Backlog {
    ghost use Rattle.std.specs.Prelude.{◌-◌, ◌++◌, length, map};
    ghost use Rattle.std.specs.VecDeque.{deque_len, deque_capacity};
    ghost use Rattle.cdc_broker.specs.Backlogs.{BacklogState};

    ghost Value = { BacklogState };

    ghost view = { λ backlog. record {
      items = map (λ s. s.value) backlog.gone.items ++ backlog.left.items;
      gone = length backlog.gone.items;
      room = deque_capacity backlog.left - deque_len backlog.left;
    } };

    ghost invariant = { λ backlog. Unit {0} };
}

impl Backlog {
    /// No items. Nothing is allocated.
    pub(crate) fn new(alloc: Global) -> Backlog
        ensures items { result.items ≡ [] }
        ensures gone { result.gone ≡ 0 }
    {
        Backlog {
            gone: Vec::new(alloc),
            left: VecDeque::new(alloc),
        }
    }

    /// Reserves memory for one more item.
    pub(crate) fn reserve(&mut self) -> Result<(), AllocError>
        ensures items { self.new.items ≡ self.old.items }
        ensures gone { self.new.gone ≡ self.old.gone }
        ensures room { OnOk result (0 < self.new.room) }
    {
        self.left.reserve(1)
    }

    /// Adds an item at the back.
    pub(crate) fn push_reserved(&mut self, item: Item)
        requires { 0 < self.old.room }
        ensures items { self.new.items ≡ self.old.items ++ item ∷ [] }
        ensures gone { self.new.gone ≡ self.old.gone }
    {
        self.left.push_back_reserved(item);
    }

    /// The item at this place, from 0 on. It wasn't let go.
    pub(crate) fn item(&self, place: usize) -> &Item
        requires left { self.now.gone ≤ place }
        requires inside { place < length self.now.items }
        ensures is { result.now ≡ get_or self.now.items place result.now }
        ensures fits { place < 2 ^ 64 - 1 }
    {
        &self.left[place - self.gone.len()]
    }

    /// Whether no memory is left for one more item.
    pub(crate) fn is_full(&self) -> bool
        ensures is { result ≡ is_full self.now }
        ensures fits { length self.now.items < 2 ^ 64 - 1 }
    {
        self.left.len() == self.left.capacity()
    }

    /// Whether at least half of the items that are left are before this place.
    pub(crate) fn has_half_before(&self, place: usize) -> bool
        requires left { self.now.gone ≤ place }
        requires inside { place ≤ length self.now.items }
        ensures { result ≡ has_half_before self.now place }
    {
        let before = place - self.gone.len();
        self.left.len() - before <= before
    }

    /// The number of items, with those that were let go.
    pub(crate) fn len(&self) -> usize
        ensures is { result ≡ length self.now.items }
        ensures within { self.now.gone ≤ length self.now.items }
    {
        self.gone.len() + self.left.len()
    }

    /// Lets go of all items before this place. The error is out of memory; some may be let go then.
    pub(crate) fn let_go(&mut self, place: usize) -> Result<(), AllocError>
        requires { place ≤ length self.old.items }
        ensures items { self.new.items ≡ self.old.items }
        ensures gone { OnOk result (self.new.gone ≡ max self.old.gone place) }
        ensures few { self.new.gone ≤ max self.old.gone place }
    {
        while self.gone.len() < place {
            self.gone.reserve(1)?;
            if let Some(item) = self.left.pop_front() {
                self.gone.push_reserved(Snapshot::of(&item));
            }
        }
        Ok(())
    }
}
