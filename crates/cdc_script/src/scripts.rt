//! Scripts: the batches that clients submit.

ghost use Rattle.std.specs.Prelude.{◌≡◌, ◌+◌, ◌<◌, ◌≤◌, [], length, Ok, Err, IfOk, IfSome, MatchResult};
ghost use Rattle.cdc_script.specs.Private.Drafts.{script_from};
ghost use Rattle.cdc_script.specs.Reading.{ConsumesAtMost, IsFault};
ghost use Rattle.cdc_script.specs.Scripts.{at_top, max_bytes, script_of_lines, script_of};
ghost use Rattle.cdc_script.specs.Scripts.{KeepsScript, StateSomething};
ghost use Rattle.cdc_script.specs.Words.{lines};

use crate::drafts::Draft;
use crate::faults::{FaultKind, LineError, ReadError, ScriptError, ScriptFault};
use crate::parts::whole;
use crate::places::{fault_in, whole_fault};
use crate::reading::read_text;
use crate::statements::read_statement;
use crate::words::next_line;
use cdc_match::Binding;
use cdc_types::{Batch, Items, Limits};
use std::alloc::Global;
use std::io::Read;

/// A batch, and the client that submits it.
#[derive(Drop)]
pub struct ClientBatch {
    /// The client's number, from 1.
    pub client: u64,
    pub batch: Batch,
}

/// The contents of a script.
#[derive(Drop)]
pub struct Script {
    /// The bindings of the subscribers, in the order of their lines. There are 1 to 8.
    pub bindings: Items<Binding>,
    /// The batches in the order of their lines.
    pub batches: Items<ClientBatch>,
    pub lines: ScriptLines,
}

/// The lines of a script's batches and requests, numbered from 1.
#[derive(Drop)]
pub struct ScriptLines {
    /// The line of each batch, in order.
    pub batches: Items<u32>,
    /// The line of each request. Those of a later batch follow those of an earlier one.
    pub requests: Items<u32>,
}

/// Reads the lines of a text up to the first fault.
fn read_lines(alloc: Global, text: &[u8]) -> Result<Draft, ScriptError>
    requires { length text.now ≤ max_bytes }
    ensures script { MatchResult result
        (λ draft. script_of_lines (lines text.now) ≡ script_from draft [])
        (λ error. IsFault error (script_of_lines (lines text.now)) (StateSomething at_top (lines text.now))) }
    ensures stated { IfOk result (λ draft. 0 < length draft.bindings.items
        → StateSomething at_top (lines text.now)) }
{
    let mut draft = Draft::new(alloc);
    let mut rest = whole(text);
    let mut number: u32 = 0;
    while let Some((line, after)) = next_line(rest) {
        number += 1;
        match read_statement(alloc, line, draft.context()) {
            Ok(None) => {}
            Ok(Some(statement)) => draft.add(alloc, number, statement)?,
            Err(LineError::Fault(fault)) => {
                return Err(ScriptError::Fault(fault_in(number, line, fault)));
            }
            Err(LineError::OutOfMemory) => return Err(ScriptError::OutOfMemory),
        }
        rest = after;
    }
    Ok(draft)
}

/// The script that a text represents. The error is its first fault or out of memory.
pub fn parse_script(alloc: Global, text: &[u8]) -> Result<Script, ScriptError>
    ensures { MatchResult result (λ script. script_of text.now ≡ Ok script)
        (λ error. IsFault error (script_of text.now) (KeepsScript text.now)) }
{
    if text.len() > Limits::SCRIPT_BYTES {
        return Err(ScriptError::Fault(whole_fault(FaultKind::TooLong)));
    }
    let draft = read_lines(alloc, text)?;
    if draft.bindings.is_empty() {
        return Err(ScriptError::Fault(whole_fault(FaultKind::NoSubscriber)));
    }
    Ok(draft.finish()?)
}

/// The script that a reader's text represents, or its first fault. Reads at most one byte more than a script may
/// have, and doesn't read again after an error.
pub fn read_script<R: Read>(
    alloc: Global,
    reader: &mut R,
) -> Result<Result<Script, ScriptFault>, ReadError>
    ensures read { IfSome (R.remaining reader.old) (λ bytes. IfOk result (λ stated. MatchResult stated
        (λ script. script_of bytes ≡ Ok script) (λ fault. script_of bytes ≡ Err fault))) }
    ensures bounded { ConsumesAtMost (max_bytes + 1)
        (R.remaining reader.old) (R.remaining reader.new) }
{
    let text = read_text(alloc, reader)?;
    match parse_script(alloc, &text) {
        Ok(script) => Ok(Ok(script)),
        Err(ScriptError::Fault(fault)) => Ok(Err(fault)),
        Err(ScriptError::OutOfMemory) => Err(ReadError::OutOfMemory),
    }
}
