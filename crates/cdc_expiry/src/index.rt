//! The index of pending transfers by expiry time.

ghost use Rattle.std.specs.Prelude.{◌≡◌, ◌≤◌, true, false, slice_get};
ghost use Rattle.std.specs.List.Sorted.{IsPartitionPoint};
ghost use Rattle.std.specs.VecDeque.{deque_len};
ghost use Rattle.cdc_expiry.specs.Triples.{has_numbers, is_before, InOrder, IsFound};

use crate::triple::Triple;
use std::alloc::{AllocError, Global};
use std::collections::VecDeque;
use std::marker::Model;

/// The triples of the pending transfers that may still expire (TigerBeetle, Two-Phase Transfers, `timeout`).
/// Contracts see the set of triples and the number of triples that can be added without allocating.
#[derive(Drop)]
pub struct DueIndex {
    /// In ascending order. Most triples are added at the back and removed at the front, where a ring buffer moves no
    /// other triple.
    triples: VecDeque<Triple>,
    /// The number of triples that memory is reserved for, including those in the index. The ring buffer's capacity is
    /// at least as large.
    capacity: usize,
}

impl Model for DueIndex {
    ghost use Rattle.std.specs.Prelude.{◌-◌};
    ghost use Rattle.std.specs.VecDeque.{deque_len, deque_capacity};
    ghost use Rattle.std.specs.FinSet as set;
    ghost use Rattle.cdc_expiry.specs.Triples.{Index, index_code, IsKept};

    ghost Value = { Index };

    ghost coded = { index_code };

    ghost view = { λ index. record {
      triples = set.from_list index.triples.items;
      room = index.capacity - deque_len index.triples;
    } };

    ghost invariant = { λ index.
        IsKept index.triples.items index.capacity (deque_capacity index.triples) };
}

impl DueIndex {
    ghost use Rattle.std.specs.Prelude.{◌≡◌, ◌+◌, ◌<◌, ◌≤◌, ◌↔◌, ◌==◌, IsTrue, OnOk, OnErr, if◌then◌else◌};
    ghost use Rattle.std.specs.FinSet as set;
    ghost use Rattle.cdc_expiry.specs.Triples.{due_at, IsLeast, IsNewTimestamp, HasNumbers, without, TimestampsAreUnique};

    /// An empty index with no reserved memory.
    pub fn new(alloc: Global) -> DueIndex
        ensures { result.triples ≡ set.empty }
    {
        DueIndex {
            triples: VecDeque::new(alloc),
            capacity: 0,
        }
    }

    /// Reserves memory for `additional` more triples. An error means out of memory and can happen only if the
    /// reserved memory is too small. The triples never change.
    pub fn reserve(&mut self, additional: usize) -> Result<(), AllocError>
        ensures triples { self.new.triples ≡ self.old.triples }
        ensures room { OnOk result (additional ≤ self.new.room) }
        ensures kept { self.old.room ≤ self.new.room }
        ensures refused { OnErr result (self.old.room < additional) }
    {
        self.triples.reserve(additional)?;
        self.capacity = self.triples.capacity();
        Ok(())
    }

    /// The number of triples that can be added without allocating.
    pub fn room(&self) -> usize
        ensures { result ≡ self.now.room }
    {
        self.capacity - self.triples.len()
    }

    /// Adds a triple whose timestamp no other triple has. It can't fail: the caller has reserved memory for it.
    pub fn add(&mut self, triple: Triple)
        requires room { 0 < self.old.room }
        requires fresh { IsNewTimestamp self.old.triples triple.timestamp }
        ensures triples { self.new.triples ≡ set.insert self.old.triples triple }
        ensures room { self.new.room + 1 ≡ self.old.room }
    {
        let place = place_of(&self.triples, triple.expires_at, triple.timestamp);
        // It can't fail: memory is reserved.
        let _added = self.triples.insert(place, triple);
    }

    /// Removes the triple with this expiry time and this timestamp, and keeps its memory reserved. Returns false, and
    /// changes nothing, if there is no such triple.
    pub fn remove(&mut self, expires_at: u64, timestamp: u64) -> bool
        ensures found { IsTrue result ↔ HasNumbers self.old.triples expires_at timestamp }
        ensures triples { self.new.triples ≡ without self.old.triples expires_at timestamp }
        ensures room { self.new.room ≡ self.old.room + (if result then 1 else 0) }
    {
        match find(&self.triples, expires_at, timestamp) {
            Some(place) => {
                let _taken = self.triples.remove(place);
                true
            }
            None => false,
        }
    }

    /// The first triple that expires at or before `now`. Of triples that expire at the same time, the one with the
    /// lowest timestamp is the first. `None` if none is due.
    pub fn due(&self, now: u64) -> Option<Triple>
        ensures { IsLeast (due_at self.now.triples now) result }
    {
        let first = first(&self.triples)?;
        (first.expires_at <= now).then_some(first)
    }

    /// The number of triples that expire at or before `now`.
    pub fn due_count(&self, now: u64) -> usize
        ensures { result ≡ set.len (due_at self.now.triples now) }
    {
        self.triples
            .partition_point(|triple| triple.expires_at <= now)
    }

    /// The number of triples. No two of them have the same timestamp.
    pub fn len(&self) -> usize
        ensures count { result ≡ set.len self.now.triples }
        ensures unique { TimestampsAreUnique self.now.triples }
    {
        self.triples.len()
    }

    pub fn is_empty(&self) -> bool
        ensures { result ≡ (set.len self.now.triples == 0) }
    {
        self.triples.is_empty()
    }
}

fn first(triples: &VecDeque<Triple>) -> Option<Triple>
    ensures { result ≡ slice_get triples.now.items 0 }
{
    triples.front().copied()
}

fn is_of(triple: &Triple, expires_at: u64, timestamp: u64) -> bool
    ensures { result ≡ has_numbers expires_at timestamp triple.now }
{
    triple.expires_at == expires_at && triple.timestamp == timestamp
}

// Whether the triple is ordered before this expiry time and this timestamp.
fn comes_before(triple: &Triple, expires_at: u64, timestamp: u64) -> bool
    ensures { result ≡ is_before expires_at timestamp triple.now }
{
    triple.expires_at < expires_at
        || (triple.expires_at == expires_at && triple.timestamp < timestamp)
}

// The number of triples that are ordered before this expiry time and this timestamp.
fn place_of(triples: &VecDeque<Triple>, expires_at: u64, timestamp: u64) -> usize
    requires { InOrder triples.now.items }
    ensures bound { result ≤ deque_len triples.now }
    ensures parts { IsPartitionPoint (λ x. is_before expires_at timestamp x ≡ true)
        (λ x. is_before expires_at timestamp x ≡ false) triples.now.items result }
{
    triples.partition_point(|triple| comes_before(triple, expires_at, timestamp))
}

// The index of the triple with this expiry time and this timestamp.
fn find(triples: &VecDeque<Triple>, expires_at: u64, timestamp: u64) -> Option<usize>
    requires { InOrder triples.now.items }
    ensures { IsFound triples.now.items expires_at timestamp result }
{
    let place = place_of(triples, expires_at, timestamp);
    let triple = triples.get(place)?;
    is_of(triple, expires_at, timestamp).then_some(place)
}
