//! Maps from the ids of accounts and transfers to their indices: hash maps with memory reserved ahead.

ghost use Rattle.std.specs.Prelude.{◌≡◌, ◌+◌, ◌≤◌, ◌<◌, ◌==◌, ℕ, [], None, Some, if◌then◌else◌, OnErr, OnOk};
ghost use Rattle.cdc_ledger.specs.PlacesById.{place_of};

use indexmap::IndexMap;
use std::alloc::{AllocError, Global};
use std::marker::Model;

/// A map from ids to indices. Contracts see the ids with their indices, and the number of ids that can be added
/// without allocating.
pub(crate) struct IdPlaces {
    map: IndexMap<u128, usize>,
    /// The number of ids that can be added without allocating. The map has memory for at least as many.
    room: usize,
}

// By hand, as the drop of a ledger: what drops the map calls it.
impl Drop for IdPlaces {
    fn drop(self) {
        let IdPlaces { map: _, room: _ } = self;
    }
}

impl Model for IdPlaces {
    ghost use Rattle.std.specs.Prelude.{◌≤◌};
    ghost use Rattle.indexmap.specs.IndexMap.{spare};
    ghost use Rattle.cdc_ledger.specs.PlacesById.{PlacesById};

    ghost Value = { PlacesById };

    ghost view = { λ p. record { places = p.map.entries; room = p.room } };

    ghost invariant = { λ p. p.room ≤ spare p.map };
}

impl IdPlaces {
    /// An empty map with no reserved memory.
    pub(crate) fn new(alloc: Global) -> IdPlaces
        ensures { result.places ≡ [] }
    {
        IdPlaces {
            map: IndexMap::new(alloc),
            room: 0,
        }
    }

    /// The index of this id. `None` if the map doesn't have the id.
    pub(crate) fn find(&self, id: u128) -> Option<usize>
        ensures { result ≡ place_of self.now id }
    {
        self.map.get(&id).copied()
    }

    /// Reserves memory for `additional` more ids. An error means out of memory, and nothing is allocated for 0 ids.
    pub(crate) fn reserve(&mut self, additional: usize) -> Result<(), AllocError>
        ensures places { self.new.places ≡ self.old.places }
        ensures room { OnOk result (additional ≤ self.new.room) }
        ensures needed { OnErr result (0 < additional) }
    {
        self.map.reserve(additional)?;
        self.room = self.room.max(additional);
        Ok(())
    }

    /// Maps the id to this index. Memory is reserved for it.
    pub(crate) fn add(&mut self, id: u128, place: usize)
        requires { 0 < self.old.room }
        ensures places { (other : ℕ) → place_of self.new other
            ≡ (if id == other then Some place else place_of self.old other) }
        ensures room { self.new.room + 1 ≡ self.old.room }
    {
        let _none = self.map.insert(id, place).unwrap();
        self.room -= 1;
    }

    /// Removes the id. Its memory doesn't count as reserved again.
    pub(crate) fn remove(&mut self, id: u128)
        ensures places { (other : ℕ) → place_of self.new other
            ≡ (if id == other then None else place_of self.old other) }
        ensures room { self.new.room ≡ self.old.room }
    {
        let _place = self.map.swap_remove(&id);
    }
}
