//! The output of a command.

ghost use Rattle.std.specs.Prelude.{◌≡◌, [], IfErr, IfOk};
ghost use Rattle.cdc_commands.specs.FaultWords.{bytes_at};
ghost use Rattle.cdc_commands.specs.Outcomes.{IsPrinted, PrintsFailure, outcome_of};

use crate::endings::Ending;
use crate::forms::Form;
use crate::notes::Notes;
use crate::tally::Tally;
use cdc_output::{ProgramFault, write_text};
use cdc_script::ScriptFault;
use std::alloc::{AllocError, Global};
use std::io::Write;

/// The output of a command, and how it ends.
#[derive(Drop)]
pub struct Output {
    /// All that the command prints.
    pub text: Vec<u8>,
    /// How the command ends if the text can be written.
    pub ending: Ending,
    /// How much of what was asked for wasn't accepted.
    pub tally: Tally,
    /// What may be unintended in the script.
    pub notes: Notes,
}

/// How a command ended, how much wasn't accepted, and what may be unintended in its script.
#[derive(Clone, Copy)]
pub struct Ended {
    pub ending: Ending,
    /// How much of what was asked for wasn't accepted.
    pub tally: Tally,
    /// What may be unintended in the script.
    pub notes: Notes,
}

impl Output {
    /// The output of a command that ends before it has taken a batch.
    fn without_batches(text: Vec<u8>, ending: Ending) -> Output
        ensures { outcome_of result ≡ record { text = text.items; ending = ending } }
    {
        Output {
            text,
            ending,
            tally: Tally::NONE,
            notes: Notes::NONE,
        }
    }

    /// The output of a command that prints nothing and ends as done.
    pub fn nothing(alloc: Global) -> Output
        ensures { outcome_of result ≡ record { text = []; ending = Ending.Done } }
    {
        Output::without_batches(Vec::new(alloc), Ending::Done)
    }

    /// The output of a command whose script doesn't have what its arguments name.
    pub fn of_usage_error(alloc: Global) -> Output
        ensures { outcome_of result ≡ record { text = []; ending = Ending.BadWords } }
    {
        Output::without_batches(Vec::new(alloc), Ending::BadWords)
    }

    /// The output of a command whose script has a fault.
    pub fn of_bad_script<F: Form>(
        form: &F,
        alloc: Global,
        script: &[u8],
        fault: ScriptFault,
    ) -> Result<Output, AllocError>
        ensures ending { IfOk result (λ output. output.ending ≡ Ending.BadScript fault) }
        ensures line { IfOk result (λ output. F.prints_fault (bytes_at script.now fault.word)
            (Ending.BadScript fault) output.text.items) }
    {
        let text = form.script_fault(alloc, script, fault)?;
        Ok(Output::without_batches(text, Ending::BadScript(fault)))
    }

    /// The output of a command whose step file has a fault.
    pub fn of_bad_steps<F: Form>(
        form: &F,
        alloc: Global,
        steps: &[u8],
        fault: ScriptFault,
    ) -> Result<Output, AllocError>
        ensures ending { IfOk result (λ output. output.ending ≡ Ending.BadSteps fault) }
        ensures line { IfOk result (λ output. F.prints_fault (bytes_at steps.now fault.word)
            (Ending.BadSteps fault) output.text.items) }
    {
        let text = form.steps_fault(alloc, steps, fault)?;
        Ok(Output::without_batches(text, Ending::BadSteps(fault)))
    }
}

/// Writes the output of a command, or the line of the fault that it failed with.
pub fn print_output<F: Form, W: Write>(
    form: &F,
    writer: &mut W,
    made: Result<Output, ProgramFault>,
) -> Ended
    ensures text { IfOk made (λ output. IsPrinted (W.contents writer.old) (W.contents writer.new)
        (outcome_of output) result.ending) }
    ensures fault { IfErr made (λ fault. PrintsFailure F.prints_fault
        (W.contents writer.old) (W.contents writer.new) fault result.ending) }
{
    match made {
        Ok(
            Output {
                text,
                ending,
                tally,
                notes,
            },
        ) => Ended {
            ending: print_text(writer, text.as_slice(), ending),
            tally,
            notes,
        },
        Err(fault) => Ended {
            ending: print_fault(form, writer, fault),
            tally: Tally::NONE,
            notes: Notes::NONE,
        },
    }
}

/// Writes a whole text. Returns this ending, or a write fault if the write fails.
pub fn print_text<W: Write>(writer: &mut W, text: &[u8], ending: Ending) -> Ending
    ensures { IsPrinted (W.contents writer.old) (W.contents writer.new)
        (record { text = text.now; ending = ending }) result }
{
    match write_text(writer, text) {
        Ok(()) => ending,
        Err(error) => Ending::Failed(ProgramFault::WriteFault(error)),
    }
}

/// Writes the line of a command that failed. Returns the failure, or a write fault if the write fails.
pub fn print_fault<F: Form, W: Write>(form: &F, writer: &mut W, fault: ProgramFault) -> Ending
    ensures { PrintsFailure F.prints_fault (W.contents writer.old) (W.contents writer.new)
        fault result }
{
    print_text(
        writer,
        form.failure(fault).as_bytes(),
        Ending::Failed(fault),
    )
}
