//! What `simulate --deliveries` prints of a simulation: the deliveries to one subscriber.

ghost use Rattle.std.specs.Prelude.{◌≡◌, IfErr, IfOk, IfSome};
ghost use Rattle.cdc_ledger.specs.Events.{events};
ghost use Rattle.cdc_commands.specs.Outcomes.{IsSimulationFault};
ghost use Rattle.cdc_commands.specs.SimulationReports.{IsReportOf};
ghost use Rattle.cdc_commands.specs.Simulations.{Stage};
ghost use Rattle.cdc_deliveries.specs.Arrivals.{arrivals};
ghost use Rattle.cdc_deliveries.specs.Deliver.{asked_text};
ghost use Rattle.cdc_deliveries.specs.Recorded.{delivery_steps};

use crate::arrivals::{Arrival, arrivals_of};
use crate::expected::expected_lines;
use crate::lines::delivery_lines;
use crate::pairs::Both;
use crate::recorder::Recorder;
use cdc_commands::queues::binding_at;
use cdc_commands::{Content, Observer, Simulated, SimulationContent};
use cdc_log::EventLog;
use cdc_match::Binding;
use cdc_output::ProgramFault;
use cdc_script::Script;
use std::alloc::{AllocError, Global};

/// Which lines are asked for, in place of a report.
#[derive(Clone, Copy, Debug, PartialEq, Eq)]
pub struct Asked {
    /// The number of the subscriber, from 1.
    pub subscriber: usize,
    /// True for what must come of the deliveries, false for the deliveries.
    pub expects: bool,
}

impl Asked {
    /// The lines that are asked for, of what arrives at the subscriber, which has this binding. The log has the events
    /// of the ledger, all of its history. An error means out of memory.
    pub fn lines(
        self,
        alloc: Global,
        log: &EventLog,
        binding: &Binding,
        arrivals: &[Arrival],
    ) -> Result<Vec<u8>, AllocError>
        ensures { IfOk result (λ text. text.items ≡ asked_text self.expects binding.now log.now.events arrivals.now) }
    {
        if self.expects {
            expected_lines(alloc, log, binding, arrivals)
        } else {
            delivery_lines(alloc, log, binding, arrivals)
        }
    }
}

/// The binding of the subscriber that is asked for.
impl Content for Asked {
    ghost use Rattle.std.specs.Prelude.{◌≡◌};
    ghost use Rattle.cdc_commands.specs.QueuePrinted as spec;

    type Found = Binding;

    ghost finds = { λ asked script found. found ≡ spec.binding_at script.bindings asked.subscriber };

    fn find(&self, alloc: Global, script: &Script) -> Result<Option<Binding>, AllocError> {
        match binding_at(script.bindings.as_slice(), self.subscriber) {
            Some(binding) => Ok(Some(binding.try_copy(alloc)?)),
            None => Ok(None),
        }
    }
}

/// The lines of what arrives at the subscriber up to its close, the same in each form.
impl<F, O: Observer> SimulationContent<F, Both<Recorder, O>> for Asked {
    ghost use Rattle.cdc_deliveries.specs.Deliver.{Delivers};

    ghost prints_plan = { Delivers };

    fn print(
        &self,
        _form: &F,
        alloc: Global,
        found: &Binding,
        simulated: &Simulated,
        _all: usize,
        observers: &Both<Recorder, O>,
    ) -> Result<Vec<u8>, ProgramFault> {
        simulated_lines(alloc, simulated, &observers.first, found, *self)
    }
}

/// The lines that are asked for, of a simulation whose steps were recorded. The subscriber has this binding. Fails if
/// memory runs out, or ran out while the steps were recorded.
fn simulated_lines(
    alloc: Global,
    simulated: &Simulated,
    recorder: &Recorder,
    binding: &Binding,
    asked: Asked,
) -> Result<Vec<u8>, ProgramFault>
    ensures text { (end : Stage) → IsReportOf end simulated.now
        → IfSome recorder.now.steps (λ steps. steps.items ≡ delivery_steps end.seen)
        → IfOk result (λ text. text.items ≡ asked_text asked.expects binding.now (events end.world.history)
        (arrivals asked.subscriber (delivery_steps end.seen))) }
    ensures fault { IfErr result IsSimulationFault }
{
    let Some(steps) = &recorder.steps else {
        return Err(ProgramFault::OutOfMemory);
    };
    let arrivals = arrivals_of(alloc, steps.as_slice(), asked.subscriber as u64)?;
    let log = simulated.world.ledger().log();
    Ok(asked.lines(alloc, log, binding, arrivals.as_slice())?)
}
