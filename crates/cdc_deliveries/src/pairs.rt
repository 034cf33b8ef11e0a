//! Two observers of one simulation.

use cdc_commands::Observer;
use cdc_ledger::Ledger;
use cdc_progress::MemoryStore;
use cdc_script::{Script, StepFile};
use cdc_types::Step;
use cdc_world::{Did, Moved, StepError, World};
use std::alloc::Global;

/// Two observers, each of which sees all that happens.
#[derive(Drop)]
pub struct Both<A, B> {
    pub first: A,
    pub second: B,
}

impl<A: Observer, B: Observer> Observer for Both<A, B> {
    ghost has_seen = { λ both seen. A.has_seen both.first seen × B.has_seen both.second seen };

    fn begin(&mut self, alloc: Global, script: &Script, steps: &StepFile) {
        self.first.begin(alloc, script, steps);
        self.second.begin(alloc, script, steps);
    }

    fn see(&mut self, step: &Step, did: &Did, moved: Option<Moved>, ledger: &Ledger) {
        self.first.see(step, did, moved, ledger);
        self.second.see(step, did, moved, ledger);
    }

    fn refuse(&mut self, step: Option<&Step>, why: StepError, world: &World<MemoryStore>) {
        self.first.refuse(step, why, world);
        self.second.refuse(step, why, world);
    }

    fn end(&mut self, ledger: &Ledger) {
        self.first.end(ledger);
        self.second.end(ledger);
    }
}
