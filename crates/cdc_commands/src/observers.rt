//! Observers of a simulation.

ghost use Rattle.std.specs.Prelude.{List, [], ◌∷◌, ◌++◌};
ghost use Rattle.cdc_commands.specs.Seen.{Seen};

use cdc_ledger::Ledger;
use cdc_progress::MemoryStore;
use cdc_script::{Script, StepFile};
use cdc_types::Step;
use cdc_world::{Did, Moved, StepError, World};
use std::alloc::Global;

/// Observes a simulation while it is played. Contracts refer to the list of steps that an observer has seen, in
/// order: for any list seen before a call, a postcondition states the list seen after it.
pub trait Observer {
    /// The observer has seen these steps.
    ghost has_seen: { Self → List Seen → Type 0 };

    /// The simulation of this script by this step file begins.
    fn begin(&mut self, alloc: Global, script: &Script, steps: &StepFile)
        ensures { has_seen self.new [] };

    /// A step was done, and moved this. `ledger` is the one after the step.
    fn see(&mut self, step: &Step, did: &Did, moved: Option<Moved>, ledger: &Ledger)
        ensures { (seen : List Seen) → has_seen self.old seen → has_seen self.new
            (seen ++ record {
              step = step.now;
              did = did.now;
              moved = moved;
              history = ledger.now;
            } ∷ []) };

    /// A step was refused; `step` is `None` for a batch, if no batch is left. `world` is the one that refused it.
    fn refuse(&mut self, step: Option<&Step>, why: StepError, world: &World<MemoryStore>)
        ensures { (seen : List Seen) → has_seen self.old seen → has_seen self.new seen };

    /// The simulation ended with this ledger.
    fn end(&mut self, ledger: &Ledger)
        ensures { (seen : List Seen) → has_seen self.old seen → has_seen self.new seen };
}
