//! Progress in memory.

ghost use Rattle.std.specs.Prelude.{◌≡◌, ◌<◌, ◌-◌, ◌^◌, None, Ok, Err, true, false, if◌then◌else◌};
ghost use Rattle.cdc_progress.specs.Memory.{Memory, HasBounds, fails_next, failures_of, called, after_save, risks_of};

use crate::progress::Progress;
use crate::stores::ProgressStore;
use cdc_files::StoreError;
use std::marker::Model;

/// A store in memory, one call of which may be made to fail. Contracts see what it holds, how many calls there were
/// and which of them fails.
#[derive(Debug, Drop)]
pub struct MemoryStore {
    held: Option<Progress>,
    calls: u64,
    fails_at: u64,
    keeps_new: bool,
}

impl Model for MemoryStore {
    ghost Value = { Memory };

    ghost view = { λ store. record {
      held = store.held;
      calls = store.calls;
      fails_at = store.fails_at;
      keeps_new = store.keeps_new;
    } };

    ghost invariant = { λ store. store.fails_at < 2 ^ 64 - 1 };
}

impl MemoryStore {
    /// Creates a store that holds nothing and never fails.
    pub fn new() -> MemoryStore
        ensures { result ≡ record { held = None; calls = 0; fails_at = 0; keeps_new = false } }
    {
        MemoryStore::with_faults(None, 0, false)
    }

    /// A store that holds `start`. The call with the number `fails_at` fails; loads and saves are counted together
    /// from 1, and 0 means that none fails. After a failed save the store holds the new record if `keeps_new`, and
    /// otherwise the old one.
    pub fn with_faults(start: Option<Progress>, fails_at: u64, keeps_new: bool) -> MemoryStore
        requires { fails_at < 2 ^ 64 - 1 }
        ensures { result ≡ record {
          held = start;
          calls = 0;
          fails_at = fails_at;
          keeps_new = keeps_new;
        } }
    {
        MemoryStore {
            held: start,
            calls: 0,
            fails_at,
            keeps_new,
        }
    }

    // Counts a call, and returns whether it is the one that fails.
    fn next_fails(&mut self) -> bool
        ensures fails { result ≡ fails_next self.old }
        ensures counted { self.new ≡ called self.old }
        ensures bounds { HasBounds self.old }
    {
        let fails = self.calls.checked_add(1) == Some(self.fails_at);
        self.calls = self.calls.saturating_add(1);
        fails
    }
}

impl ProgressStore for MemoryStore {
    ghost held = { λ store. store.held };

    ghost failed = { failures_of };

    ghost is_honest = { λ _. true };

    ghost risks = { risks_of };

    fn load(&mut self) -> Result<Option<Progress>, StoreError>
        ensures answer { result
            ≡ (if fails_next self.old then Err StoreError.ReadFault else Ok self.old.held) }
        ensures after { self.new ≡ called self.old }
        ensures bounds { HasBounds self.old }
    {
        if self.next_fails() {
            return Err(StoreError::ReadFault);
        }
        Ok(self.held)
    }

    fn save(&mut self, progress: Progress) -> Result<(), StoreError>
        ensures answer { result
            ≡ (if fails_next self.old then Err StoreError.WriteFault else Ok tt) }
        ensures after { self.new ≡ after_save self.old progress }
        ensures bounds { HasBounds self.old }
    {
        let fails = self.next_fails();
        if !fails || self.keeps_new {
            self.held = Some(progress);
        }
        if fails {
            Err(StoreError::WriteFault)
        } else {
            Ok(())
        }
    }

    fn failures(&self) -> u64 {
        if self.fails_at != 0 && self.fails_at <= self.calls {
            1
        } else {
            0
        }
    }
}
