//! The open pending transfers, and which of them expires first.

ghost use Rattle.std.specs.Prelude.{◌≡◌, ◌==◌, ◌++◌, ◌∷◌, [], ◌≤◌, ◌&&◌, ℕ, List, is_some, not, nat_eq, true, None, IfOk, OnOk, OnErr, if◌then◌else◌};
ghost use Rattle.std.specs.Ordering.{is_eq};
ghost use Rattle.std.specs.BTreeSet.{contains};
ghost use Rattle.indexmap.specs.IndexMap.{insert_entry, spare};
ghost use Rattle.cdc_audit.specs.declared.open_ones.Due as due;
ghost use Rattle.cdc_types.specs.declared.events.Event as event;
ghost use Rattle.cdc_audit.specs.Standing as spec;
ghost use Rattle.cdc_audit.specs.Standing.{IsFirst, IsIndexOf};

use crate::settling::expires_at;
use cdc_keys::{HashKey, KeyedMap};
use cdc_types::Event;
use indexmap::IndexMap;
use std::alloc::{AllocError, Global};
use std::collections::BTreeSet;
use std::marker::Model;

/// When a pending transfer expires, when it was stored, and its id: pending transfers expire in the order of these.
#[derive(Clone, Copy, Debug, PartialEq, Eq, PartialOrd, Ord, Drop)]
pub(crate) struct Due {
    expires_at: u128,
    timestamp: u64,
    id: u128,
}

/// The events that stored the open pending transfers, by these transfers' ids.
#[derive(Drop)]
pub struct OpenOnes {
    events: KeyedMap<u128, Event>,
    /// Those with a timeout, in the order in which they expire.
    index: BTreeSet<Due>,
}

impl Model for OpenOnes {
    ghost use Rattle.std.specs.Prelude.{ℕ, List};
    ghost use Rattle.cdc_types.specs.declared.events.Event.{Event};
    ghost use Rattle.cdc_audit.specs.Standing.{IsIndexOf};

    ghost Value = { List (ℕ × Event) };

    ghost view = { λ o. o.events.entries };

    ghost invariant = { λ o. IsIndexOf o.index o.events.entries };
}

impl OpenOnes {
    /// No open pending transfer. Ids are hashed with this key.
    pub fn new(alloc: Global, key: HashKey) -> OpenOnes
        ensures { result ≡ [] }
    {
        OpenOnes {
            events: IndexMap::with_hasher(alloc, key),
            index: BTreeSet::new(alloc),
        }
    }

    /// The events, by the ids of the transfers that they stored.
    pub fn events(&self) -> &KeyedMap<u128, Event>
        ensures { result.now.entries ≡ self.now }
    {
        &self.events
    }

    /// The event that stored the open pending transfer with this id.
    pub fn get(&self, id: u128) -> Option<Event>
        ensures { result ≡ spec.open_under self.now id }
    {
        self.events.get(&id).copied()
    }

    /// The event that stored the one that expires first; `None` if none has a timeout.
    pub fn first(&self) -> Option<Event>
        ensures { IsFirst (spec.open_under self.now) result }
    {
        let due = self.index.first()?;
        self.events.get(&due.id).copied()
    }

    /// Adds the event that stored a pending transfer, unless there is one of that id. Returns whether it was added. The
    /// one error is that memory ran out, and then nothing changes.
    pub fn add(&mut self, event: &Event) -> Result<bool, AllocError>
        ensures added { IfOk result (λ added. added ≡ not (is_some (spec.open_under self.old event.now.transfer.id))) }
        ensures events { IfOk result (λ added. self.new ≡ spec.with_open self.old event.now) }
        ensures err { OnErr result (self.new ≡ self.old) }
    {
        let id = event.transfer.id;
        if self.events.contains_key(&id) {
            return Ok(false);
        }
        self.events.reserve(1)?;
        add_due(&mut self.index, id, event)?;
        insert_event(&mut self.events, id, event);
        Ok(true)
    }

    /// Removes the one that was added last.
    pub fn take_back(&mut self)
        ensures { (front : List (ℕ × event.Event)) (last : ℕ × event.Event) → self.old ≡ front ++ last ∷ []
            → self.new ≡ front }
    {
        if let Some((id, last)) = self.events.pop() {
            let _removed = self.index.remove(&due_of(id, &last));
        }
    }

    /// Removes the one with this id.
    pub fn remove(&mut self, id: u128)
        ensures { (other : ℕ) → spec.open_under self.new other
            ≡ (if id == other then None else spec.open_under self.old other) }
    {
        if let Some(event) = self.events.swap_remove(&id) {
            let _removed = self.index.remove(&due_of(id, &event));
        }
    }
}

fn due_of(id: u128, event: &Event) -> Due
    ensures { result ≡ spec.due_of id event.now }
{
    Due {
        expires_at: expires_at(&event.transfer),
        timestamp: event.transfer.timestamp,
        id,
    }
}

/// Adds when the transfer of an event under this id expires, if it has a timeout.
fn add_due(index: &mut BTreeSet<Due>, id: u128, event: &Event) -> Result<(), AllocError>
    ensures added { OnOk result ((due : due.Due) → contains spec.due_cmp index.new due
        ≡ (if not (event.now.transfer.timeout == 0) && is_eq (spec.due_cmp (spec.due_of id event.now) due) then true
        else contains spec.due_cmp index.old due)) }
    ensures err { OnErr result (index.new ≡ index.old) }
{
    if event.transfer.timeout != 0 && index.insert(due_of(id, event)).is_err() {
        return Err(AllocError);
    }
    Ok(())
}

/// Adds an event under an id.
fn insert_event(events: &mut KeyedMap<u128, Event>, id: u128, event: &Event)
    requires { 1 ≤ spare events.old }
    ensures { events.new.entries ≡ insert_entry nat_eq events.old.entries id event.now }
{
    events.insert(id, *event).unwrap();
}
