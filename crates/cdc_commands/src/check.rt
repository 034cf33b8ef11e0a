//! Validates a script, and a step file: the flag `--check` of `books`, `messages` and `simulate`.

ghost use Rattle.std.specs.Prelude.{◌≡◌, ◌⊎◌, ◌+◌, List, Option, ℕ, IfErr, IfOk, IfSome, Some};
ghost use Rattle.cdc_script.specs.Reading.{ConsumesAtMost};
ghost use Rattle.cdc_script.specs.Scripts.{max_bytes};
ghost use Rattle.cdc_commands.specs.Checked.{ValidatesFiles, PrintsNothing};
ghost use Rattle.cdc_commands.specs.Outcomes.{IsReadFault, MayFailScript, Writes, ending_of};
ghost use Rattle.cdc_commands.specs.Printed.{PrintsScript};
ghost use Rattle.cdc_commands.specs.Simulated.{IsGoodScript};

use crate::endings::Ending;
use crate::forms::Form;
use crate::output::{Output, print_output};
use crate::reading::read_file;
use cdc_output::ProgramFault;
use cdc_script::{ScriptError, parse_script, parse_steps};
use std::alloc::{AllocError, Global};
use std::io::{Read, Write};

/// What a check prints for the bytes of a script, and how it ends: the line of its first fault, or nothing. Fails if
/// memory runs out.
pub fn check_of<F: Form>(form: &F, alloc: Global, bytes: &[u8]) -> Result<Output, AllocError>
    ensures { IfOk result (λ output. PrintsScript PrintsNothing F.prints_fault (Some bytes.now)
        output.ending output.text.items) }
{
    match parse_script(alloc, bytes) {
        Ok(_) => Ok(Output::nothing(alloc)),
        Err(ScriptError::Fault(fault)) => Output::of_bad_script(form, alloc, bytes, fault),
        Err(ScriptError::OutOfMemory) => Err(AllocError),
    }
}

/// Reads a script, and prints what `check_of` makes of its bytes. A command that fails prints why, and nothing else;
/// nothing is written after a write that failed.
pub fn check<F: Form, R: Read, W: Write>(
    form: &F,
    alloc: Global,
    reader: &mut R,
    writer: &mut W,
) -> Ending
    ensures writes { Writes (PrintsScript PrintsNothing F.prints_fault (R.remaining reader.old))
        (W.contents writer.old) (W.contents writer.new) result }
    ensures bounded { ConsumesAtMost (max_bytes + 1)
        (R.remaining reader.old) (R.remaining reader.new) }
{
    let output = validate(form, alloc, reader);
    print_output(form, writer, output).ending
}

/// Reads a script, and returns what a check prints for it.
#[tactic(auto, using(crate::proofs::OutputLemmas::printed_of_script))]
fn validate<F: Form, R: Read>(
    form: &F,
    alloc: Global,
    reader: &mut R,
) -> Result<Output, ProgramFault>
    ensures output { IfOk result (λ output. PrintsScript PrintsNothing F.prints_fault
        (R.remaining reader.old) output.ending output.text.items) }
    ensures fault { IfErr result MayFailScript }
    ensures bounded { ConsumesAtMost (max_bytes + 1)
        (R.remaining reader.old) (R.remaining reader.new) }
{
    let bytes = read_file(alloc, reader)?;
    Ok(check_of(form, alloc, &bytes)?)
}

/// Reads a script and then, if the script is good, a step file, and prints the line of the fault that comes first;
/// nothing if they have none. A command that fails prints why, and nothing else; nothing is written after a write that
/// failed.
pub fn check_files<F: Form, R: Read, Q: Read, W: Write>(
    form: &F,
    alloc: Global,
    script: &mut R,
    steps: &mut Q,
    writer: &mut W,
) -> Ending
    ensures writes { Writes (ValidatesFiles F.prints_fault
        (R.remaining script.old) (Q.remaining steps.old))
        (W.contents writer.old) (W.contents writer.new) result }
    ensures order { IsReadFault result
        → (steps.new ≡ steps.old) ⊎ IfSome (R.remaining script.old) IsGoodScript }
    ensures script { ConsumesAtMost (max_bytes + 1)
        (R.remaining script.old) (R.remaining script.new) }
    ensures steps { ConsumesAtMost (max_bytes + 1) (Q.remaining steps.old) (Q.remaining steps.new) }
{
    let output = validate_files(form, alloc, script, steps);
    print_output(form, writer, output).ending
}

/// Reads a script and a step file, and returns what a check prints for them.
#[tactic(auto, using(crate::proofs::OutputLemmas::bad_script, crate::proofs::OutputLemmas::good_script))]
fn validate_files<F: Form, R: Read, Q: Read>(
    form: &F,
    alloc: Global,
    script: &mut R,
    steps: &mut Q,
) -> Result<Output, ProgramFault>
    ensures output { IfOk result (λ output. ValidatesFiles F.prints_fault
        (R.remaining script.old) (Q.remaining steps.old) output.ending output.text.items) }
    ensures fault { IfErr result MayFailScript }
    ensures order { IsReadFault (ending_of result)
        → (steps.new ≡ steps.old) ⊎ IfSome (R.remaining script.old) IsGoodScript }
    ensures script { ConsumesAtMost (max_bytes + 1)
        (R.remaining script.old) (R.remaining script.new) }
    ensures steps { ConsumesAtMost (max_bytes + 1) (Q.remaining steps.old) (Q.remaining steps.new) }
{
    let bytes = read_file(alloc, script)?;
    match parse_script(alloc, &bytes) {
        Ok(_) => validate_steps(form, alloc, steps),
        Err(ScriptError::Fault(fault)) => Ok(Output::of_bad_script(form, alloc, &bytes, fault)?),
        Err(ScriptError::OutOfMemory) => Err(ProgramFault::OutOfMemory),
    }
}

/// Reads a step file, after a good script, and returns what a check prints for it.
#[tactic(auto, using(crate::proofs::OutputLemmas::bad_steps, crate::proofs::OutputLemmas::good_steps))]
fn validate_steps<F: Form, Q: Read>(
    form: &F,
    alloc: Global,
    steps: &mut Q,
) -> Result<Output, ProgramFault>
    ensures output { (script : Option (List ℕ)) → IfSome script IsGoodScript
        → IfOk result (λ output. ValidatesFiles F.prints_fault
        script (Q.remaining steps.old) output.ending output.text.items) }
    ensures fault { IfErr result MayFailScript }
    ensures steps { ConsumesAtMost (max_bytes + 1) (Q.remaining steps.old) (Q.remaining steps.new) }
{
    let bytes = read_file(alloc, steps)?;
    match parse_steps(alloc, &bytes) {
        Ok(_) => Ok(Output::nothing(alloc)),
        Err(ScriptError::Fault(fault)) => Ok(Output::of_bad_steps(form, alloc, &bytes, fault)?),
        Err(ScriptError::OutOfMemory) => Err(ProgramFault::OutOfMemory),
    }
}
