//! Simulations: a world over the batches of a script, moved by the acts of a step file.

ghost use Rattle.std.specs.Prelude.{◌≡◌, ◌^◌, ◌<◌, ◌≤◌, ◌+◌, ◌++◌, ℕ, List, [], false, IfErr, IfOk};
ghost use Rattle.std.specs.Prelude.{OnErr, OnOk, Some, drop, if◌then◌else◌, is_some, length};
ghost use Rattle.std.specs.Vec.Iter.{into_iter_items};
ghost use Rattle.cdc_script.specs.declared.scripts.ClientBatch.{ClientBatch as Parsed};
ghost use Rattle.cdc_types.specs.Windows.{IsWindow};
ghost use Rattle.cdc_commands.specs.Private.Stages.{AbortsAt, HasDoneAt, IsAt};
ghost use Rattle.cdc_commands.specs.Outcomes.{IsSimulationFault};
ghost use Rattle.cdc_commands.specs.SimulationReports.{ComesTo, IsReportOf};
ghost use Rattle.cdc_commands.specs.Simulations.{ActsTo, AnswersTo, PlaysActs, Stage};
ghost use Rattle.cdc_commands.specs.Simulations.{at_start, did_answer};

use crate::batches::Answered;
use crate::observers::Observer;
use cdc_match::Binding;
use cdc_output::ProgramFault;
use cdc_progress::{MemoryStore, Progress};
use cdc_script::{Act, ClientBatch, Script};
use cdc_world::{Did, Played, Step, StepError, World};
use std::alloc::{AllocError, Global};
use std::marker::Model;
use std::vec::IntoIter;

/// The result of a simulation.
#[derive(Drop)]
pub struct Simulated {
    /// The answer to each batch that was taken.
    pub answers: Vec<Answered>,
    /// How many steps were done, and why the one after them was refused, if it was.
    pub played: Played,
    /// The progress that the store holds.
    pub held: Option<Progress>,
    /// The world after the last step that was done.
    pub world: World<MemoryStore>,
}

/// A simulation in progress. The store of its world is honest, and never fails or runs out of memory. Contracts see
/// the world, how many batches are done, and what the ledger answered.
#[derive(Drop)]
pub struct Simulation {
    world: World<MemoryStore>,
    /// How many of the script's batches are done.
    batches: usize,
    /// The ledger's answer to each of them.
    answers: Vec<Answered>,
}

impl Model for Simulation {
    ghost use Rattle.std.specs.Prelude.{◌≡◌, true};
    ghost use Rattle.cdc_commands.specs.Private.Stages.{SimulationParts};

    ghost Value = { SimulationParts };

    ghost view = { λ simulation. record {
      world = simulation.world;
      batches = simulation.batches;
      answers = simulation.answers.items;
    } };

    ghost use Rattle.cdc_progress.specs.Stores.{no_risks};

    ghost invariant = { λ simulation. (simulation.world.honest ≡ true)
        × (simulation.world.risks ≡ no_risks) };
}

/// Plays acts over the batches of a script, up to the first that is refused. The observer sees each step that is
/// done, and what it moved.
pub fn play_script<O: Observer>(
    alloc: Global,
    script: Script,
    window: usize,
    acts: &[Act],
    observer: &mut O,
) -> Result<Simulated, ProgramFault>
    requires { IsWindow window }
    ensures comes { IfOk result (λ simulated. ComesTo
        (record { script = script; window = window; acts = acts.now }) simulated) }
    ensures count { IfOk result (λ simulated. simulated.played.done ≤ length acts.now) }
    ensures fault { IfErr result IsSimulationFault }
    ensures seen { O.has_seen observer.old [] → IfOk result (λ simulated. (come : ComesTo
        (record { script = script; window = window; acts = acts.now }) simulated)
        × O.has_seen observer.new come.end.seen) }
{
    let Script {
        bindings,
        batches,
        lines: _,
    } = script;
    let mut simulation = Simulation::new(alloc, bindings.into_vec(), window)?;
    let played = simulation.play(alloc, batches.into_vec(), acts, observer)?;
    observer.end(simulation.world.ledger());
    simulation.finish(played)
}

impl Simulation {
    /// Creates a simulation over a world in which nothing has happened.
    fn new(alloc: Global, bindings: Vec<Binding>, window: usize) -> Result<Simulation, AllocError>
        requires { IsWindow window }
        ensures stage { IfOk result (λ simulation.
            IsAt simulation (at_start bindings.items window)) }
        ensures none { IfOk result (λ simulation. simulation.batches ≡ 0) }
    {
        Ok(Simulation {
            world: World::new(alloc, bindings, window, MemoryStore::new())?,
            batches: 0,
            answers: Vec::new(alloc),
        })
    }

    /// Plays acts over the batches of a script, up to the first act that is refused.
    fn play<O: Observer>(
        &mut self,
        alloc: Global,
        batches: Vec<ClientBatch>,
        acts: &[Act],
        observer: &mut O,
    ) -> Result<Played, AllocError>
        requires none { self.old.batches ≡ 0 }
        ensures plays { (stage : Stage) → IsAt self.old stage → stage.done ≡ 0
            → IfOk result (λ played. (end : Stage) × (IsAt self.new end × ((end.done ≡ played.done)
            × (PlaysActs batches.items stage acts.now played.refusal end
            × (O.has_seen observer.old stage.seen → O.has_seen observer.new end.seen))))) }
        ensures count { IfOk result (λ played. played.done ≤ length acts.now) }
    {
        let mut left = batches.into_iter();
        for (done, act) in acts.iter().enumerate() {
            let refusal = self.play_act(alloc, &mut left, act, observer)?;
            if refusal.is_some() {
                return Ok(Played { done, refusal });
            }
        }
        Ok(Played {
            done: acts.len(),
            refusal: None,
        })
    }

    /// Plays an act, or returns why it is refused; a step that runs out of memory counts as refused. Fails if there
    /// is no memory for what is printed of an act that was done. `left` are the batches after those that are done.
    fn play_act<O: Observer>(
        &mut self,
        alloc: Global,
        left: &mut IntoIter<ClientBatch>,
        act: &Act,
        observer: &mut O,
    ) -> Result<Option<StepError>, AllocError>
        requires few { self.old.batches < 2 ^ 63 }
        ensures acts { (batches : List Parsed) → into_iter_items left.old ≡ drop self.old.batches batches
            → (stage : Stage) → IsAt self.old stage → IfOk result (λ refusal. (after : Stage)
            × (IsAt self.new after × (ActsTo batches stage act.now refusal after
            × (O.has_seen observer.old stage.seen → O.has_seen observer.new after.seen)))) }
        ensures aborts { (batches : List Parsed)
            → into_iter_items left.old ≡ drop self.old.batches batches
            → (stage : Stage) → IsAt self.old stage
            → OnErr result (AbortsAt batches stage act.now self.new) }
        ensures left { (batches : List Parsed) → into_iter_items left.old ≡ drop self.old.batches batches
            → IfOk result (λ refusal. is_some refusal ≡ false
            → into_iter_items left.new ≡ drop self.new.batches batches) }
        ensures within { (batches : List Parsed)
            → into_iter_items left.old ≡ drop self.old.batches batches
            → self.old.batches ≤ length batches → OnOk result (self.new.batches ≤ length batches) }
        ensures count { OnOk result (self.new.batches ≤ self.old.batches + 1) }
    {
        match act {
            Act::Step(step) => {
                let batches_done = self.batches;
                self.play_step(alloc, step, batches_done, observer)
            }
            Act::Batch => match left.next() {
                None => {
                    observer.refuse(None, StepError::NotEnabled, &self.world);
                    Ok(Some(StepError::NotEnabled))
                }
                Some(item) => {
                    let batches_done = self.batches + 1;
                    self.play_step(alloc, &Step::Submit(item.batch), batches_done, observer)
                }
            },
        }
    }

    /// Takes a step, or returns why it is refused; a step that runs out of memory counts as refused. After the step
    /// this many batches are done. Fails if there is no memory for what is printed of a step that was done.
    fn play_step<O: Observer>(
        &mut self,
        alloc: Global,
        step: &Step,
        batches_done: usize,
        observer: &mut O,
    ) -> Result<Option<StepError>, AllocError>
        requires few { self.old.batches < 2 ^ 63 }
        ensures answers { (stage : Stage) → IsAt self.old stage → IfOk result (λ refusal.
            (after : Stage) × (IsAt self.new after
            × (AnswersTo stage (Some (step.now, batches_done)) refusal after
            × (O.has_seen observer.old stage.seen → O.has_seen observer.new after.seen)))) }
        ensures aborts { (stage : Stage) → IsAt self.old stage
            → OnErr result (HasDoneAt stage step.now self.new) }
        ensures within { (most : ℕ) → self.old.batches ≤ most → batches_done ≤ most
            → OnOk result (self.new.batches ≤ most) }
        ensures count { IfOk result (λ refusal. self.new.batches
            ≡ (if is_some refusal then self.old.batches else batches_done)) }
    {
        match self.world.step_moved(alloc, step) {
            Ok(done) => {
                let (did, moved) = done;
                observer.see(step, &did, moved, self.world.ledger());
                push_answer(&mut self.answers, self.batches as u64 + 1, did)?;
                self.batches = batches_done;
                Ok(None)
            }
            Err(refusal) => {
                observer.refuse(Some(step), refusal, &self.world);
                Ok(Some(refusal))
            }
        }
    }

    /// The result of the simulation after this play.
    fn finish(self, played: Played) -> Result<Simulated, ProgramFault>
        ensures stage { (stage : Stage) → IsAt self stage → stage.done ≡ played.done
            → IfOk result (λ simulated. (simulated.played ≡ played) × IsReportOf stage simulated) }
        ensures played { IfOk result (λ simulated. simulated.played ≡ played) }
        ensures fault { IfErr result IsSimulationFault }
    {
        let Simulation {
            mut world,
            batches: _,
            answers,
        } = self;
        let held = world.progress()?;
        Ok(Simulated {
            answers,
            played,
            held,
            world,
        })
    }
}

/// Adds the ledger's answer to a step that was done, if it was a batch; the batch has this number.
fn push_answer(answers: &mut Vec<Answered>, number: u64, did: Did) -> Result<(), AllocError>
    ensures { OnOk result (answers.new.items ≡ answers.old.items ++ did_answer number did) }
{
    match did {
        Did::Submitted(results) => {
            let answer = Ok(results);
            answers.push(Answered { number, answer })?;
            Ok(())
        }
        Did::Arrived(_) | Did::Counted(_) | Did::Took(_) | Did::Done => Ok(()),
    }
}
