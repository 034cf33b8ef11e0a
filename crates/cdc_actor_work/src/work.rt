//! What an actor of a run works with, whatever its kind.

use crate::faults::RunFault;
use crate::places::Place;
use std::alloc::Global;
use std::sync::Wait;

/// What an actor of a run works with.
pub trait Work {
    ghost use Rattle.std.specs.Prelude.{◌≡◌, Bool};
    ghost use Rattle.cdc_actor_work.specs.declared.faults.RunFault.{RunFault};
    ghost use Rattle.cdc_actor_work.specs.declared.places.Place.{Place};

    /// What is left of it once it is over.
    type Parts;

    /// The actor's place in a run.
    ghost place: { Self → Place };

    /// The type of its seat: what no turn changes, such as its links.
    ghost Seat: { Type 0 };

    /// Its seat, which stays the same whatever it does.
    ghost seat: { Self → Seat };

    /// The invariant that it keeps until it meets a fault.
    ghost keeps: { Self → Type 0 };

    ghost is_over: { Self → Bool };

    /// The faults that it may meet.
    ghost fails_as: { Self → RunFault → Type 0 };

    /// The relation between it and what is left of it.
    ghost leaves: { Self → Self.Parts → Type 0 };

    /// The actor's place in a run.
    fn place(&self) -> Place
        ensures { result ≡ place self.now };

    fn is_over(&self) -> bool
        ensures { result ≡ is_over self.now };

    /// Aborts its outgoing links: their receivers learn that nothing more comes.
    fn abort<R: Wait>(&mut self, rt: &R)
        ensures { self.new ≡ self.old };

    /// Takes it apart, once it is over.
    fn into_parts(self) -> Self::Parts
        ensures { leaves self result };
}

/// Work that is done turn by turn.
pub trait Turns: Work {
    ghost use Rattle.std.specs.Prelude.{◌≡◌, ◌≤◌, ◌+◌, ℕ, IfErr, IfOk, false};
    ghost use Rattle.cdc_actor_work.specs.declared.faults.RunFault.{RunFault};

    /// How many messages it has received.
    ghost received: { Self → ℕ };

    /// What a turn without a fault changes.
    ghost turns: { Self → Self → Type 0 };

    /// How far a turn comes that fails with a fault.
    ghost fails: { Self → RunFault → Self → Type 0 };

    /// Takes one turn of work that isn't over: receives a message, and up to `more` further ones that are ready, and
    /// sends what follows from them.
    fn take_turn<R: Wait>(&mut self, rt: &R, alloc: Global, more: usize) -> Result<(), RunFault>
        requires kept { Self.keeps self.old }
        requires goes_on { Self.is_over self.old ≡ false }
        ensures turned { IfOk result (λ _. turns self.old self.new) }
        ensures few { IfOk result (λ _. received self.new ≤ received self.old + 1 + more) }
        ensures kept { IfOk result (λ _. Self.keeps self.new) }
        ensures failed { IfErr result (λ fault. fails self.old fault self.new) }
        ensures kind { IfErr result (Self.fails_as self.new) }
        ensures seat { Self.seat self.new ≡ Self.seat self.old };
}

/// Work that has a number among those of its kind.
pub trait Numbered: Work {
    ghost use Rattle.std.specs.Prelude.{◌≡◌, ℕ};

    /// Its number, from 1.
    ghost number: { Self → ℕ };

    /// Its number, from 1.
    fn number(&self) -> u64
        ensures { result ≡ number self.now };
}

/// Work that keeps notes for the trace of a run. The notes are in no view, and no other contract mentions them.
pub trait Noted: Work {
    ghost use Rattle.std.specs.Prelude.{◌≡◌};

    type Notes;

    /// Takes the notes so far. The work goes on with none.
    fn take_notes(&mut self, alloc: Global) -> Self::Notes
        ensures { self.new ≡ self.old };
}
