//! `messages --queue`: prints the messages of one subscriber's queue, each with the timestamp of the message before it.

ghost use Rattle.std.specs.Prelude.{◌≡◌, ◌+◌, IfErr, IfOk, Some};
ghost use Rattle.std.specs.Option.{option_copied};
ghost use Rattle.cdc_script.specs.Reading.{ConsumesAtMost};
ghost use Rattle.cdc_script.specs.Scripts.{max_bytes};
ghost use Rattle.cdc_commands.specs.Outcomes.{MayFailScript, Writes};
ghost use Rattle.cdc_commands.specs.QueuePrinted.{AnswersQueue, PrintsQueue};
ghost use Rattle.cdc_commands.specs.QueuePrinted as spec;

use crate::batches::take_batches;
use crate::endings::Ending;
use crate::forms::Form;
use crate::notes::Notes;
use crate::output::{Ended, Output, print_output};
use crate::reading::read_file;
use crate::tally::Tally;
use cdc_match::Binding;
use cdc_output::ProgramFault;
use cdc_queue_lines::queue_lines;
use cdc_script::{Script, ScriptError, parse_script};
use std::alloc::{AllocError, Global};
use std::io::{Read, Write};

/// What `messages --queue` prints for the bytes of a script, and how it ends. It prints the lines of the queue of the
/// subscriber of this number, from 1; or the fault of a bad script. If the script has no such subscriber, it prints
/// nothing and ends as a usage error. Fails if memory runs out.
pub fn queue_of<F: Form>(
    form: &F,
    alloc: Global,
    bytes: &[u8],
    number: usize,
) -> Result<Output, AllocError>
    ensures { IfOk result (λ output. PrintsQueue F.prints_fault number (Some bytes.now)
        output.ending output.text.items) }
{
    match parse_script(alloc, bytes) {
        Ok(script) => print_queue(alloc, &script, number),
        Err(ScriptError::Fault(fault)) => Output::of_bad_script(form, alloc, bytes, fault),
        Err(ScriptError::OutOfMemory) => Err(AllocError),
    }
}

/// What `messages --queue` prints for a script, and how it ends.
fn print_queue(alloc: Global, script: &Script, number: usize) -> Result<Output, AllocError>
    ensures { IfOk result (λ output. AnswersQueue script.now number output.ending output.text.items) }
{
    let Some(binding) = binding_at(script.bindings.as_slice(), number) else {
        return Ok(Output::of_usage_error(alloc));
    };
    let taken = take_batches(alloc, script)?;
    let text = queue_lines(alloc, taken.ledger.log(), binding)?;
    Ok(Output {
        text,
        ending: Ending::Done,
        tally: Tally::NONE,
        notes: Notes::of(alloc, script),
    })
}

/// The binding of the subscriber of this number, from 1. `None` if there is none.
pub fn binding_at(bindings: &[Binding], number: usize) -> Option<&Binding>
    ensures { option_copied result ≡ spec.binding_at bindings.now number }
{
    bindings.get(number.checked_sub(1)?)
}

/// Reads a script, and prints what `queue_of` makes of its bytes. A command that fails prints why, and nothing else;
/// nothing is written after a write that failed.
pub fn queue<F: Form, R: Read, W: Write>(
    form: &F,
    alloc: Global,
    reader: &mut R,
    writer: &mut W,
    number: usize,
) -> Ended
    ensures writes { Writes (PrintsQueue F.prints_fault number (R.remaining reader.old))
        (W.contents writer.old) (W.contents writer.new) result.ending }
    ensures bounded { ConsumesAtMost (max_bytes + 1)
        (R.remaining reader.old) (R.remaining reader.new) }
{
    let output = read_queue(form, alloc, reader, number);
    print_output(form, writer, output)
}

#[tactic(auto, using(crate::proofs::OutputLemmas::printed_of_queue))]
fn read_queue<F: Form, R: Read>(
    form: &F,
    alloc: Global,
    reader: &mut R,
    number: usize,
) -> Result<Output, ProgramFault>
    ensures output { IfOk result (λ output. PrintsQueue F.prints_fault number
        (R.remaining reader.old) output.ending output.text.items) }
    ensures fault { IfErr result MayFailScript }
    ensures bounded { ConsumesAtMost (max_bytes + 1)
        (R.remaining reader.old) (R.remaining reader.new) }
{
    let bytes = read_file(alloc, reader)?;
    Ok(queue_of(form, alloc, &bytes, number)?)
}
