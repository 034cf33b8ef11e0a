//! Tries the steps of a step file in a world, and keeps those that are done.

ghost use Rattle.std.specs.Prelude.{◌≡◌, ◌+◌, ◌++◌, ◌∷◌, [], None, true, fold, length, map, IfOk, OnOk};
ghost use Rattle.cdc_types.specs.Windows.{IsWindow};
ghost use Rattle.cdc_progress.specs.Stores.{no_risks};
ghost use Rattle.cdc_world.specs.Stands.{Stands};
ghost use Rattle.cdc_world.specs.Worlds.{WorldState, new_world};
ghost use Rattle.cdc_enabled_steps.specs.Enabled.{after_trial, enabled_acts, new_trial, submission};
ghost use Rattle.cdc_enabled_steps.specs.Private.Trials.{TriesAct, TriesStep};

use cdc_match::Binding;
use cdc_progress::MemoryStore;
use cdc_script::{Act, ClientBatch, Script, StepFile};
use cdc_world::{Step, StepError, World};
use std::alloc::{AllocError, Global};

/// The steps of a step file that a simulation can take.
#[derive(Drop)]
pub struct EnabledSteps {
    /// The steps that are done, each with its line.
    pub steps: StepFile,
    /// How many others there were, each of which was refused at its place.
    pub refused: usize,
}

impl EnabledSteps {
    /// No steps.
    fn none(alloc: Global) -> EnabledSteps
        ensures acts { result.steps.acts.items ≡ [] }
        ensures refused { result.refused ≡ 0 }
    {
        EnabledSteps {
            steps: StepFile {
                acts: Vec::new(alloc),
                lines: Vec::new(alloc),
            },
            refused: 0,
        }
    }

    /// Adds an act that is done, of the line of this number.
    fn add(&mut self, act: Act, line: u32) -> Result<(), AllocError>
        ensures acts { OnOk result (self.new.steps.acts.items ≡ self.old.steps.acts.items ++ act ∷ []) }
        ensures refused { self.new.refused ≡ self.old.refused }
    {
        self.steps.acts.push(act)?;
        self.steps.lines.push(line)?;
        Ok(())
    }
}

/// The steps of these that a simulation of a script can take one after another, if it goes past each that is refused:
/// the next is tried in the world as it is then. `window` is how many events of a session may wait for their confirms at
/// a time. The one error is that memory ran out.
pub fn enabled_steps(
    alloc: Global,
    script: Script,
    window: usize,
    steps: StepFile,
) -> Result<EnabledSteps, AllocError>
    requires { IsWindow window }
    ensures acts { IfOk result (λ enabled. enabled.steps.acts.items
        ≡ enabled_acts script window steps.acts.items) }
    ensures refused { IfOk result (λ enabled. length enabled.steps.acts.items + enabled.refused
        ≡ length steps.acts.items) }
{
    let Script {
        bindings,
        batches,
        lines: _,
    } = script;
    let submissions = submissions_of(alloc, batches.into_vec())?;
    try_in_world(
        alloc,
        bindings.into_vec(),
        window,
        submissions.as_slice(),
        steps,
    )
}

/// Tries steps in a new world with these bindings, in order; those submit the script's batches.
fn try_in_world(
    alloc: Global,
    bindings: Vec<Binding>,
    window: usize,
    submissions: &[Step],
    steps: StepFile,
) -> Result<EnabledSteps, AllocError>
    requires { IsWindow window }
    ensures acts { IfOk result (λ enabled. enabled.steps.acts.items
        ≡ (fold after_trial (new_trial (new_world bindings.items window None) submissions.now) steps.acts.items).done) }
    ensures refused { IfOk result (λ enabled. length enabled.steps.acts.items + enabled.refused
        ≡ length steps.acts.items) }
{
    let mut world = World::new(alloc, bindings, window, MemoryStore::new())?;
    try_steps(alloc, &mut world, submissions, steps)
}

/// The steps that submit these batches.
fn submissions_of(alloc: Global, batches: Vec<ClientBatch>) -> Result<Vec<Step>, AllocError>
    ensures { IfOk result (λ steps. steps.items ≡ map submission batches.items) }
{
    let mut steps = Vec::new(alloc);
    for ClientBatch { client: _, batch } in batches {
        steps.push(Step::Submit(batch))?;
    }
    Ok(steps)
}

/// Tries steps in this world, in order; these submit the script's batches.
fn try_steps(
    alloc: Global,
    world: &mut World<MemoryStore>,
    submissions: &[Step],
    steps: StepFile,
) -> Result<EnabledSteps, AllocError>
    requires honest { world.old.honest ≡ true }
    requires risks { world.old.risks ≡ no_risks }
    ensures acts { (w : WorldState) → Stands world.old w → IfOk result (λ enabled. enabled.steps.acts.items
        ≡ (fold after_trial (new_trial w submissions.now) steps.acts.items).done) }
    ensures refused { IfOk result (λ enabled. length enabled.steps.acts.items + enabled.refused
        ≡ length steps.acts.items) }
{
    let StepFile { acts, lines } = steps;
    let mut lines = lines.into_iter();
    let mut enabled = EnabledSteps::none(alloc);
    let mut submitted = 0;
    for act in acts {
        let line = lines.next().unwrap_or(0);
        if try_act(alloc, world, submissions, &mut submitted, &act)? {
            enabled.add(act, line)?;
        } else {
            enabled.refused += 1;
        }
    }
    Ok(enabled)
}

/// Tries an act, where so many batches were submitted. Returns whether it is done; otherwise nothing changes.
fn try_act(
    alloc: Global,
    world: &mut World<MemoryStore>,
    submissions: &[Step],
    submitted: &mut usize,
    act: &Act,
) -> Result<bool, AllocError>
    requires honest { world.old.honest ≡ true }
    requires risks { world.old.risks ≡ no_risks }
    ensures honest { world.new.honest ≡ world.old.honest }
    ensures risks { world.new.risks ≡ world.old.risks }
    ensures tries { IfOk result (λ done. TriesAct submissions.now act.now done
        world.old submitted.old world.new submitted.new) }
{
    match act {
        Act::Step(step) => try_step(alloc, world, step),
        Act::Batch => match submissions.get(*submitted) {
            None => Ok(false),
            Some(step) => {
                let done = try_step(alloc, world, step)?;
                if done {
                    *submitted += 1;
                }
                Ok(done)
            }
        },
    }
}

/// Tries a step. Returns whether it is done; otherwise nothing changes.
fn try_step(alloc: Global, world: &mut World<MemoryStore>, step: &Step) -> Result<bool, AllocError>
    requires honest { world.old.honest ≡ true }
    requires risks { world.old.risks ≡ no_risks }
    ensures honest { world.new.honest ≡ world.old.honest }
    ensures risks { world.new.risks ≡ world.old.risks }
    ensures tries { IfOk result (λ done. TriesStep step.now done world.old world.new) }
{
    match world.step(alloc, step) {
        Ok(_) => Ok(true),
        Err(StepError::OutOfMemory) => Err(AllocError),
        Err(_) => Ok(false),
    }
}
