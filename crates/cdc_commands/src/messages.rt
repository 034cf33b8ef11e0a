//! The command `messages`: prints the routing headers and the body of the message of each event of a script.

ghost use Rattle.std.specs.Prelude.{◌≡◌, ◌+◌, ◌<◌, IfErr, IfOk, OnErr, Some, length};
ghost use Rattle.cdc_script.specs.Reading.{ConsumesAtMost};
ghost use Rattle.cdc_script.specs.Scripts.{max_bytes};
ghost use Rattle.cdc_commands.specs.Outcomes.{MayFailScript, Writes};
ghost use Rattle.cdc_commands.specs.Printed.{PrintsScript};

use crate::batches::take_batches;
use crate::endings::Ending;
use crate::forms::Form;
use crate::notes::Notes;
use crate::output::{Ended, Output, print_output};
use crate::reading::read_file;
use crate::tally::Tally;
use cdc_output::ProgramFault;
use cdc_script::{Script, ScriptError, parse_script};
use std::alloc::{AllocError, Global};
use std::io::{Read, Write};

/// What `messages` prints for the bytes of a script, and how it ends. It prints the routing headers, the second and
/// the body of each event's message (TigerBeetle, Change Data Capture, headers and message body); or the fault of a
/// bad script. Fails if memory runs out.
pub fn messages_of<F: Form>(form: &F, alloc: Global, bytes: &[u8]) -> Result<Output, AllocError>
    ensures { IfOk result (λ output. PrintsScript F.prints_messages F.prints_fault (Some bytes.now)
        output.ending output.text.items) }
{
    match parse_script(alloc, bytes) {
        Ok(script) => {
            let text = print_messages(form, alloc, &script)?;
            Ok(Output {
                text,
                ending: Ending::Done,
                tally: Tally::NONE,
                notes: Notes::of(alloc, &script),
            })
        }
        Err(ScriptError::Fault(fault)) => Output::of_bad_script(form, alloc, bytes, fault),
        Err(ScriptError::OutOfMemory) => Err(AllocError),
    }
}

/// What `messages` prints for a script. A script without batches needs no memory.
fn print_messages<F: Form>(form: &F, alloc: Global, script: &Script) -> Result<Vec<u8>, AllocError>
    ensures text { IfOk result (λ text. F.prints_messages script.now text.items) }
    ensures memory { OnErr result (0 < length script.now.batches) }
{
    let taken = take_batches(alloc, script)?;
    form.messages(alloc, taken.ledger.log(), script.bindings.as_slice())
}

/// Reads a script, and prints what `messages_of` makes of its bytes. A command that fails prints why, and nothing else;
/// nothing is written after a write that failed.
pub fn messages<F: Form, R: Read, W: Write>(
    form: &F,
    alloc: Global,
    reader: &mut R,
    writer: &mut W,
) -> Ended
    ensures writes { Writes (PrintsScript F.prints_messages F.prints_fault (R.remaining reader.old))
        (W.contents writer.old) (W.contents writer.new) result.ending }
    ensures bounded { ConsumesAtMost (max_bytes + 1)
        (R.remaining reader.old) (R.remaining reader.new) }
{
    let output = read_messages(form, alloc, reader);
    print_output(form, writer, output)
}

#[tactic(auto, using(crate::proofs::OutputLemmas::printed_of_script))]
fn read_messages<F: Form, R: Read>(
    form: &F,
    alloc: Global,
    reader: &mut R,
) -> Result<Output, ProgramFault>
    ensures output { IfOk result (λ output. PrintsScript F.prints_messages F.prints_fault
        (R.remaining reader.old) output.ending output.text.items) }
    ensures fault { IfErr result MayFailScript }
    ensures bounded { ConsumesAtMost (max_bytes + 1)
        (R.remaining reader.old) (R.remaining reader.new) }
{
    let bytes = read_file(alloc, reader)?;
    Ok(messages_of(form, alloc, &bytes)?)
}
