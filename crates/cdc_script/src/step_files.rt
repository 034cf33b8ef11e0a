//! Step files, which script a simulation: each line is a batch or a step.

ghost use Rattle.std.specs.Prelude.{◌≡◌, ◌+◌, ◌≤◌, ◌++◌, ◌∷◌, [], length};
ghost use Rattle.std.specs.Prelude.{Ok, Err, IfOk, IfSome, MatchResult, OnOk};
ghost use Rattle.cdc_script.specs.Reading.{ConsumesAtMost, IsFault};
ghost use Rattle.cdc_script.specs.Scripts.{max_bytes};
ghost use Rattle.cdc_script.specs.StepFiles.{ack_stated, act_stated, acts_from, acts_of, line_names};
ghost use Rattle.cdc_script.specs.StepFiles.{KeepsActs, NameAnAct, act_lines, act_lines_from};
ghost use Rattle.cdc_script.specs.StepFiles.{start_stated, timestamp_stated};
ghost use Rattle.cdc_script.specs.Private.Parts.{seen, words_of};
ghost use Rattle.cdc_script.specs.Words.{lines};

use crate::faults::{FaultKind, LineFault, ReadError, ScriptError, ScriptFault};
use crate::operands::{at_end, number_in, read_lone_number, read_word_number};
use crate::parts::{Part, whole};
use crate::places::{bad_text, fault_in, missing, whole_fault, wrong};
use crate::reading::read_text;
use crate::words::{first_word, is_printable_word, is_word, next_line, next_word};
use cdc_types::{EventTimestamp, Limits, Step};
use std::alloc::{AllocError, Global};
use std::io::Read;

/// The contents of one line of a step file.
#[derive(Drop)]
pub enum Act {
    /// The next batch of the script is submitted to the ledger.
    Batch,
    Step(Step),
}

/// The contents of a step file.
#[derive(Drop)]
pub struct StepFile {
    /// The acts of its lines, in order.
    pub acts: Vec<Act>,
    /// The line of each act, from 1.
    pub lines: Vec<u32>,
}

impl StepFile {
    /// Adds the act of the line of this number.
    fn add(&mut self, act: Act, line: u32) -> Result<(), AllocError>
        ensures acts { OnOk result (self.new.acts.items ≡ self.old.acts.items ++ act ∷ []) }
        ensures lines { OnOk result (self.new.lines.items ≡ self.old.lines.items ++ line ∷ []) }
    {
        self.acts.push(act)?;
        self.lines.push(line)?;
        Ok(())
    }
}

/// The act of a line. `None` if the line is blank or a comment.
fn read_act(line: Part<'_>) -> Result<Option<Act>, LineFault>
    ensures { result ≡ line_names (seen line.entry) }
{
    match first_word(line) {
        None => Ok(None),
        Some((first, rest)) => Ok(Some(act_of_words(first, rest)?)),
    }
}

/// The act that the words of a line name.
fn act_of_words(first: Part<'_>, rest: Part<'_>) -> Result<Act, LineFault>
    ensures { result ≡ act_stated (seen first.entry) (words_of rest.entry) }
{
    if !is_printable_word(first.bytes) {
        Err(bad_text(first))
    } else if is_word(first.bytes, "batch") {
        at_end(rest, FaultKind::WrongCount, Act::Batch)
    } else if is_word(first.bytes, "close_ledger") {
        at_end(rest, FaultKind::WrongCount, Act::Step(Step::CloseLedger))
    } else if is_word(first.bytes, "start") {
        read_start(rest)
    } else if is_word(first.bytes, "crash") {
        at_end(rest, FaultKind::WrongCount, Act::Step(Step::Crash))
    } else if is_word(first.bytes, "poll") {
        at_end(rest, FaultKind::WrongCount, Act::Step(Step::Poll))
    } else if is_word(first.bytes, "publish") {
        at_end(rest, FaultKind::WrongCount, Act::Step(Step::Publish))
    } else if is_word(first.bytes, "save") {
        at_end(rest, FaultKind::WrongCount, Act::Step(Step::Save))
    } else if is_word(first.bytes, "arrive") {
        Ok(Act::Step(Step::Arrive(read_lone_number(rest)?)))
    } else if is_word(first.bytes, "answer") {
        Ok(Act::Step(Step::Answer(read_lone_number(rest)?)))
    } else if is_word(first.bytes, "send") {
        Ok(Act::Step(Step::Send(read_lone_number(rest)?)))
    } else if is_word(first.bytes, "rewind") {
        Ok(Act::Step(Step::Rewind(read_lone_number(rest)?)))
    } else if is_word(first.bytes, "break") {
        Ok(Act::Step(Step::Break(read_lone_number(rest)?)))
    } else if is_word(first.bytes, "take") {
        Ok(Act::Step(Step::Take(read_lone_number(rest)?)))
    } else if is_word(first.bytes, "close") {
        Ok(Act::Step(Step::Close(read_lone_number(rest)?)))
    } else if is_word(first.bytes, "ack") {
        read_ack(rest)
    } else {
        Err(wrong(FaultKind::UnknownWord, first))
    }
}

/// A start of a session: without further words, or with `at` and a timestamp.
fn read_start(words: Part<'_>) -> Result<Act, LineFault>
    ensures { result ≡ start_stated (words_of words.entry) }
{
    let Some((word, rest)) = next_word(words) else {
        return Ok(Act::Step(Step::Start));
    };
    if !is_printable_word(word.bytes) {
        Err(bad_text(word))
    } else if is_word(word.bytes, "at") {
        read_timestamp(rest)
    } else {
        Err(wrong(FaultKind::WrongCount, word))
    }
}

/// A start of a session at a timestamp, in nanoseconds, which has to be the last word.
fn read_timestamp(words: Part<'_>) -> Result<Act, LineFault>
    ensures { result ≡ timestamp_stated (words_of words.entry) }
{
    let (word, rest) = next_word(words).ok_or(missing(FaultKind::WrongCount))?;
    if !is_printable_word(word.bytes) {
        return Err(bad_text(word));
    }
    let number = number_in(word, word.bytes, u128::from(Limits::TIMESTAMP))?;
    let Some(timestamp) = EventTimestamp::new(number as u64) else {
        return Err(wrong(FaultKind::NumberOutOfRange, word));
    };
    at_end(
        rest,
        FaultKind::WrongCount,
        Act::Step(Step::StartAt(timestamp)),
    )
}

/// An acknowledgement: the number of a subscriber, and the number of the acknowledgement.
fn read_ack(words: Part<'_>) -> Result<Act, LineFault>
    ensures { result ≡ ack_stated (words_of words.entry) }
{
    let (subscriber, rest) = read_word_number(words)?;
    let number = read_lone_number(rest)?;
    Ok(Act::Step(Step::Ack(subscriber, number)))
}

/// Reads the lines of a text up to the first fault.
fn read_acts(alloc: Global, text: &[u8]) -> Result<StepFile, ScriptError>
    requires { length text.now ≤ max_bytes }
    ensures acts { MatchResult result
        (λ steps. acts_from 1 (lines text.now) ≡ Ok steps.acts.items)
        (λ error. IsFault error (acts_from 1 (lines text.now)) (NameAnAct (lines text.now))) }
    ensures lines { IfOk result (λ steps. steps.lines.items ≡ act_lines_from 1 (lines text.now)) }
{
    let mut steps = StepFile {
        acts: Vec::new(alloc),
        lines: Vec::new(alloc),
    };
    let mut rest = whole(text);
    let mut number: u32 = 0;
    while let Some((line, after)) = next_line(rest) {
        number += 1;
        match read_act(line) {
            Ok(None) => {}
            Ok(Some(act)) => steps.add(act, number)?,
            Err(fault) => return Err(ScriptError::Fault(fault_in(number, line, fault))),
        }
        rest = after;
    }
    Ok(steps)
}

/// The step file that a text represents. The error is its first fault or out of memory.
pub fn parse_steps(alloc: Global, text: &[u8]) -> Result<StepFile, ScriptError>
    ensures acts { MatchResult result (λ steps. acts_of text.now ≡ Ok steps.acts.items)
        (λ error. IsFault error (acts_of text.now) (KeepsActs text.now)) }
    ensures lines { IfOk result (λ steps. steps.lines.items ≡ act_lines text.now) }
{
    if text.len() > Limits::SCRIPT_BYTES {
        return Err(ScriptError::Fault(whole_fault(FaultKind::TooLong)));
    }
    read_acts(alloc, text)
}

/// The step file that a reader's text represents, or its first fault. Reads at most one byte more than a step file
/// may have, and doesn't read again after an error.
pub fn read_steps<R: Read>(
    alloc: Global,
    reader: &mut R,
) -> Result<Result<StepFile, ScriptFault>, ReadError>
    ensures read { IfSome (R.remaining reader.old) (λ bytes. IfOk result (λ stated. MatchResult stated
        (λ steps. acts_of bytes ≡ Ok steps.acts.items) (λ fault. acts_of bytes ≡ Err fault))) }
    ensures bounded { ConsumesAtMost (max_bytes + 1)
        (R.remaining reader.old) (R.remaining reader.new) }
{
    let text = read_text(alloc, reader)?;
    match parse_steps(alloc, &text) {
        Ok(steps) => Ok(Ok(steps)),
        Err(ScriptError::Fault(fault)) => Ok(Err(fault)),
        Err(ScriptError::OutOfMemory) => Err(ReadError::OutOfMemory),
    }
}
