//! An observer that records the steps of deliveries.

ghost use Rattle.std.specs.Prelude.{◌≡◌};
ghost use Rattle.cdc_deliveries.specs.Recorded.{sent_step, step_of as happened, taken_step};

use crate::steps::DeliveryStep;
use cdc_commands::Observer;
use cdc_ledger::Ledger;
use cdc_progress::MemoryStore;
use cdc_script::{Script, StepFile};
use cdc_types::Step;
use cdc_world::{Did, Moved, StepError, World};
use std::alloc::Global;

/// Records the steps of deliveries while a simulation is played.
#[derive(Drop)]
pub struct Recorder {
    /// The steps that were seen, in order. `None` if memory ran out.
    pub steps: Option<Vec<DeliveryStep>>,
}

impl Recorder {
    ghost use Rattle.std.specs.Prelude.{◌≡◌, ◌∷◌, ◌++◌, [], List, IfSome, IsSomeAnd};
    ghost use Rattle.cdc_deliveries.specs.declared.steps.DeliveryStep.{DeliveryStep as Recorded};

    /// A recorder that has seen nothing.
    pub fn new(alloc: Global) -> Recorder
        ensures { IsSomeAnd result.steps (λ steps. steps.items ≡ []) }
    {
        Recorder {
            steps: Some(Vec::new(alloc)),
        }
    }

    /// Adds a step, or notes that memory ran out.
    fn push(&mut self, step: DeliveryStep)
        ensures { (before : List Recorded) → IfSome self.old.steps (λ steps. steps.items ≡ before)
            → IfSome self.new.steps (λ steps. steps.items ≡ before ++ step ∷ []) }
    {
        let is_recorded = match &mut self.steps {
            Some(steps) => steps.push(step).is_ok(),
            None => true,
        };
        if !is_recorded {
            self.steps = None;
        }
    }
}

impl Observer for Recorder {
    ghost use Rattle.std.specs.Prelude.{◌≡◌, IfSome};
    ghost use Rattle.cdc_deliveries.specs.Recorded.{delivery_steps};

    ghost has_seen = { λ recorder seen. IfSome recorder.steps (λ steps. steps.items ≡ delivery_steps seen) };

    fn begin(&mut self, alloc: Global, _script: &Script, _steps: &StepFile) {
        *self = Recorder::new(alloc);
    }

    fn see(&mut self, step: &Step, did: &Did, moved: Option<Moved>, _ledger: &Ledger) {
        if let Some(step) = step_of(step, did, moved) {
            self.push(step);
        }
    }

    fn refuse(&mut self, _step: Option<&Step>, _why: StepError, _world: &World<MemoryStore>) {}

    fn end(&mut self, _ledger: &Ledger) {}
}

/// What a step did with deliveries. `None` if it neither sent, lost nor took one.
fn step_of(step: &Step, did: &Did, moved: Option<Moved>) -> Option<DeliveryStep>
    ensures { result ≡ happened step.now did.now moved }
{
    match step {
        Step::Send(subscriber) => sent(*subscriber, moved),
        Step::Break(subscriber) => Some(DeliveryStep::Lost {
            subscriber: *subscriber,
        }),
        Step::Take(subscriber) => taken(*subscriber, did, moved),
        _ => None,
    }
}

fn sent(subscriber: u64, moved: Option<Moved>) -> Option<DeliveryStep>
    ensures { result ≡ sent_step subscriber moved }
{
    match moved {
        Some(Moved::DeliverySent { position, item: _ }) => Some(DeliveryStep::Sent {
            subscriber,
            position,
        }),
        _ => None,
    }
}

fn taken(subscriber: u64, did: &Did, moved: Option<Moved>) -> Option<DeliveryStep>
    ensures { result ≡ taken_step subscriber did.now moved }
{
    match (did, moved) {
        (Did::Took(answer), Some(Moved::DeliveryTaken { position, item })) => {
            Some(DeliveryStep::Taken {
                subscriber,
                position,
                item,
                answer: *answer,
            })
        }
        _ => None,
    }
}
