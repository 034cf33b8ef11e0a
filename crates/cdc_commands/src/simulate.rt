//! The command `simulate`: takes a script's batches and a session's packets step by step.

ghost use Rattle.std.specs.Prelude.{◌≡◌, ◌⊎◌, ◌+◌, ℕ, List};
ghost use Rattle.std.specs.Prelude.{Err, IfErr, IfOk, IfSome, Ok, Some};
ghost use Rattle.cdc_script.specs.Reading.{ConsumesAtMost};
ghost use Rattle.cdc_script.specs.declared.faults.ScriptFault.{ScriptFault};
ghost use Rattle.cdc_script.specs.Scripts.{max_bytes, script_of};
ghost use Rattle.cdc_types.specs.Windows.{IsWindow};
ghost use Rattle.cdc_commands.specs.FaultWords.{bytes_at};
ghost use Rattle.cdc_commands.specs.Observed.{SawSteps};
ghost use Rattle.cdc_commands.specs.Outcomes.{IsReadFault, IsSimulationFault, MayFailScript, Writes, ending_of};
ghost use Rattle.cdc_commands.specs.Simulated.{IsGoodScript, PrintsPlan, of_acts, of_files};

use crate::contents::SimulationContent;
use crate::endings::Ending;
use crate::forms::Form;
use crate::notes::Notes;
use crate::observers::Observer;
use crate::output::{Ended, Output, print_output};
use crate::reading::read_file;
use crate::simulations::play_script;
use crate::tally::Tally;
use cdc_output::ProgramFault;
use cdc_script::{ReadError, Script, ScriptError, StepFile, parse_script, parse_steps};
use std::alloc::Global;
use std::io::{Read, Write};

/// What `simulate` prints for the bytes of a script and of a step file, and how it ends. The steps are taken in
/// order, up to the first that is refused. It prints this content of the simulation; the report has the results of the
/// batches that were taken, how many steps were done, what the session has saved, and the book of each subscriber. Or
/// it prints the fault of a bad script or step file. If the script lacks what the content has to find, it prints
/// nothing and ends as a usage error. The observer has seen just the steps that were taken. Fails if memory runs out.
pub fn simulation_of<F: Form, C: SimulationContent<F, O>, O: Observer>(
    form: &F,
    content: &C,
    alloc: Global,
    script: &[u8],
    steps: &[u8],
    window: usize,
    observer: &mut O,
) -> Result<Output, ProgramFault>
    requires { IsWindow window }
    ensures output { IfOk result (λ output. PrintsPlan (C.prints_plan content.now)
        (C.finds content.now) F.prints_fault (of_files window (Some script.now) (Some steps.now))
        output.ending output.text.items) }
    ensures seen { IfOk result (λ output. SawSteps (O.has_seen observer.new) (C.finds content.now)
        (of_files window (Some script.now) (Some steps.now))
        output.ending) }
    ensures fault { IfErr result IsSimulationFault }
    ensures no_read { IsReadFault (ending_of result) → ⊥ }
{
    match parse_script(alloc, script) {
        Ok(stated) => script_simulation(form, content, alloc, stated, steps, window, observer),
        Err(ScriptError::Fault(fault)) => Ok(Output::of_bad_script(form, alloc, script, fault)?),
        Err(ScriptError::OutOfMemory) => Err(ProgramFault::OutOfMemory),
    }
}

/// What `simulate` prints for the bytes of a script and for these steps, and how it ends. It is the same as for a step
/// file that has these steps, so only the script can be bad. Fails if memory runs out.
pub fn simulation_of_steps<F: Form, C: SimulationContent<F, O>, O: Observer>(
    form: &F,
    content: &C,
    alloc: Global,
    script: &[u8],
    steps: &StepFile,
    window: usize,
    observer: &mut O,
) -> Result<Output, ProgramFault>
    requires { IsWindow window }
    ensures output { IfOk result (λ output. PrintsPlan (C.prints_plan content.now)
        (C.finds content.now) F.prints_fault (of_acts window (Some script.now) steps.now.acts.items)
        output.ending output.text.items) }
    ensures seen { IfOk result (λ output. SawSteps (O.has_seen observer.new) (C.finds content.now)
        (of_acts window (Some script.now) steps.now.acts.items)
        output.ending) }
    ensures fault { IfErr result IsSimulationFault }
    ensures no_read { IsReadFault (ending_of result) → ⊥ }
{
    match parse_script(alloc, script) {
        Ok(stated) => steps_simulation(form, content, alloc, stated, steps, window, observer),
        Err(ScriptError::Fault(fault)) => Ok(Output::of_bad_script(form, alloc, script, fault)?),
        Err(ScriptError::OutOfMemory) => Err(ProgramFault::OutOfMemory),
    }
}

/// What `simulate` prints for a script and the bytes of a step file.
fn script_simulation<F: Form, C: SimulationContent<F, O>, O: Observer>(
    form: &F,
    content: &C,
    alloc: Global,
    script: Script,
    steps: &[u8],
    window: usize,
    observer: &mut O,
) -> Result<Output, ProgramFault>
    requires { IsWindow window }
    ensures output { (bytes : List ℕ) → script_of bytes ≡ Ok script
        → IfOk result (λ output. PrintsPlan (C.prints_plan content.now)
        (C.finds content.now) F.prints_fault (of_files window (Some bytes) (Some steps.now))
        output.ending output.text.items) }
    ensures seen { (bytes : List ℕ) → script_of bytes ≡ Ok script
        → IfOk result (λ output. SawSteps (O.has_seen observer.new) (C.finds content.now)
        (of_files window (Some bytes) (Some steps.now))
        output.ending) }
    ensures fault { IfErr result IsSimulationFault }
    ensures no_read { IsReadFault (ending_of result) → ⊥ }
{
    let stated = match parse_steps(alloc, steps) {
        Ok(stated) => stated,
        Err(ScriptError::Fault(fault)) => {
            return Ok(Output::of_bad_steps(form, alloc, steps, fault)?);
        }
        Err(ScriptError::OutOfMemory) => return Err(ProgramFault::OutOfMemory),
    };
    steps_simulation(form, content, alloc, script, &stated, window, observer)
}

/// What `simulate` prints for a script and for steps.
fn steps_simulation<F: Form, C: SimulationContent<F, O>, O: Observer>(
    form: &F,
    content: &C,
    alloc: Global,
    script: Script,
    steps: &StepFile,
    window: usize,
    observer: &mut O,
) -> Result<Output, ProgramFault>
    requires { IsWindow window }
    ensures output { (bytes : List ℕ) → script_of bytes ≡ Ok script
        → IfOk result (λ output. PrintsPlan (C.prints_plan content.now)
        (C.finds content.now) F.prints_fault (of_acts window (Some bytes) steps.now.acts.items)
        output.ending output.text.items) }
    ensures seen { (bytes : List ℕ) → script_of bytes ≡ Ok script
        → IfOk result (λ output. SawSteps (O.has_seen observer.new) (C.finds content.now)
        (of_acts window (Some bytes) steps.now.acts.items)
        output.ending) }
    ensures fault { IfErr result IsSimulationFault }
    ensures no_read { IsReadFault (ending_of result) → ⊥ }
{
    let notes = Notes::of(alloc, &script);
    let sought = content.find(alloc, &script)?;
    let Some(found) = sought else {
        return Ok(Output::of_usage_error(alloc));
    };
    observer.begin(alloc, &script, steps);
    let acts = steps.acts.as_slice();
    let simulated = play_script(alloc, script, window, acts, observer)?;
    let text = content.print(form, alloc, &found, &simulated, acts.len(), observer)?;
    Ok(Output {
        text,
        ending: Ending::of_refusal(simulated.played.refusal),
        tally: Tally::of(simulated.answers.as_slice()),
        notes,
    })
}

/// Reads a script and then a step file, and prints what `simulation_of` makes of their bytes. The observer sees the
/// steps that are done. A command that fails prints why, and nothing else; nothing is written after a write that
/// failed.
pub fn simulate_command<
    F: Form,
    C: SimulationContent<F, O>,
    R: Read,
    Q: Read,
    W: Write,
    O: Observer,
>(
    form: &F,
    content: &C,
    alloc: Global,
    script: &mut R,
    steps: &mut Q,
    window: usize,
    writer: &mut W,
    observer: &mut O,
) -> Ended
    requires { IsWindow window }
    ensures writes { Writes (PrintsPlan (C.prints_plan content.now)
        (C.finds content.now) F.prints_fault (of_files window (R.remaining script.old) (Q.remaining steps.old)))
        (W.contents writer.old) (W.contents writer.new) result.ending }
    ensures seen { Writes (λ ending _. SawSteps (O.has_seen observer.new) (C.finds content.now)
        (of_files window (R.remaining script.old) (Q.remaining steps.old))
        ending)
        (W.contents writer.old) (W.contents writer.new) result.ending }
    ensures order { IsReadFault result.ending
        → (steps.new ≡ steps.old) ⊎ IfSome (R.remaining script.old) IsGoodScript }
    ensures script { ConsumesAtMost (max_bytes + 1)
        (R.remaining script.old) (R.remaining script.new) }
    ensures steps { ConsumesAtMost (max_bytes + 1) (Q.remaining steps.old) (Q.remaining steps.new) }
{
    let output = read_simulation(form, content, alloc, script, steps, window, observer);
    print_output(form, writer, output)
}

/// Reads a script and a step file, and returns what `simulate` prints for them.
fn read_simulation<F: Form, C: SimulationContent<F, O>, R: Read, Q: Read, O: Observer>(
    form: &F,
    content: &C,
    alloc: Global,
    script: &mut R,
    steps: &mut Q,
    window: usize,
    observer: &mut O,
) -> Result<Output, ProgramFault>
    requires { IsWindow window }
    ensures output { IfOk result (λ output. PrintsPlan (C.prints_plan content.now)
        (C.finds content.now) F.prints_fault (of_files window (R.remaining script.old) (Q.remaining steps.old))
        output.ending output.text.items) }
    ensures seen { IfOk result (λ output. SawSteps (O.has_seen observer.new) (C.finds content.now)
        (of_files window (R.remaining script.old) (Q.remaining steps.old))
        output.ending) }
    ensures fault { IfErr result MayFailScript }
    ensures order { IsReadFault (ending_of result)
        → (steps.new ≡ steps.old) ⊎ IfSome (R.remaining script.old) IsGoodScript }
    ensures script { ConsumesAtMost (max_bytes + 1)
        (R.remaining script.old) (R.remaining script.new) }
    ensures steps { ConsumesAtMost (max_bytes + 1) (Q.remaining steps.old) (Q.remaining steps.new) }
{
    let script = read_file(alloc, script)?;
    match read_file(alloc, steps) {
        Ok(steps) => simulation_of(form, content, alloc, &script, &steps, window, observer),
        Err(error) => unread_steps(form, alloc, &script, error),
    }
}

/// What `simulate` prints for the bytes of a script if its step file can't be read. The script is validated first.
fn unread_steps<F: Form>(
    form: &F,
    alloc: Global,
    script: &[u8],
    error: ReadError,
) -> Result<Output, ProgramFault>
    ensures output { IfOk result (λ output. (at : ScriptFault) × ((output.ending ≡ Ending.BadScript at)
        × ((script_of script.now ≡ Err at)
        × F.prints_fault (bytes_at script.now at.word) (Ending.BadScript at) output.text.items))) }
    ensures fault { IfErr result MayFailScript }
    ensures order { IsReadFault (ending_of result) → IsGoodScript script.now }
{
    match parse_script(alloc, script) {
        Ok(_) => Err(error.into()),
        Err(ScriptError::Fault(fault)) => Ok(Output::of_bad_script(form, alloc, script, fault)?),
        Err(ScriptError::OutOfMemory) => Err(ProgramFault::OutOfMemory),
    }
}
