//! The command `books`: prints the results of a script's batches, and the books of its subscribers, each of which has
//! taken its queue of what was published.

ghost use Rattle.std.specs.Prelude.{◌≡◌, ◌+◌, IfErr, IfOk, IsSomeAnd, Some};
ghost use Rattle.cdc_match.specs.Arguments.{Arguments};
ghost use Rattle.cdc_script.specs.Reading.{ConsumesAtMost};
ghost use Rattle.cdc_script.specs.Scripts.{max_bytes};
ghost use Rattle.cdc_script.specs.declared.scripts.Script.{Script as Parsed};
ghost use Rattle.cdc_commands.specs.BookReports.{AreBatchesOf, AreParsedFrom};
ghost use Rattle.cdc_commands.specs.Held.{HasWholeFeed, ListsBalances};
ghost use Rattle.cdc_commands.specs.Outcomes.{MayFailScript, Writes};
ghost use Rattle.cdc_commands.specs.Printed.{PrintsScript, history_of};

use crate::book_reports::{ParsedBatches, books_report};
use crate::endings::Ending;
use crate::forms::Form;
use crate::notes::Notes;
use crate::output::{Ended, Output, print_output};
use crate::reading::read_file;
use crate::tally::Tally;
use cdc_output::ProgramFault;
use cdc_script::{Script, ScriptError, parse_script};
use std::alloc::{AllocError, Global};
use std::io::{Read, Write};

/// What `books` prints for a script, and the script's batches.
#[derive(Drop)]
pub struct BooksOutput {
    /// What it prints, and how it ends.
    pub output: Output,
    /// The batches; none if the script is bad.
    pub parsed: Option<ParsedBatches>,
}

/// How the command `books` ended, and the batches of its script.
#[derive(Drop)]
pub struct BooksEnded {
    /// How the command ended.
    pub ended: Ended,
    /// The batches; none if the script is bad or the command failed before it had printed.
    pub parsed: Option<ParsedBatches>,
}

/// What `books` prints for the bytes of a script, and how it ends. It prints the ledger's answers to the script's
/// batches, and the book of each subscriber after it has taken its queue of all events and the end mark; or the fault
/// of a bad script. Fails if memory runs out.
pub fn books_of<F: Form>(form: &F, alloc: Global, bytes: &[u8]) -> Result<BooksOutput, AllocError>
    ensures output { IfOk result (λ made. PrintsScript F.prints_books F.prints_fault (Some bytes.now)
        made.output.ending made.output.text.items) }
    ensures parsed { IfOk result (λ made. AreParsedFrom (Some bytes.now) made.output.ending made.parsed) }
{
    match parse_script(alloc, bytes) {
        Ok(script) => script_books(form, alloc, script),
        Err(ScriptError::Fault(fault)) => Ok(BooksOutput {
            output: Output::of_bad_script(form, alloc, bytes, fault)?,
            parsed: None,
        }),
        Err(ScriptError::OutOfMemory) => Err(AllocError),
    }
}

fn script_books<F: Form>(form: &F, alloc: Global, script: Script) -> Result<BooksOutput, AllocError>
    ensures prints { IfOk result (λ made. F.prints_books script made.output.text.items) }
    ensures ending { IfOk result (λ made. made.output.ending ≡ Ending.Done) }
    ensures parsed { IfOk result (λ made. IsSomeAnd made.parsed (AreBatchesOf script)) }
{
    let notes = Notes::of(alloc, &script);
    let (report, parsed) = books_report(alloc, script)?;
    let tally = Tally::of(report.answers.as_slice());
    let text = form.books(alloc, &report)?;
    let output = Output {
        text,
        ending: Ending::Done,
        tally,
        notes,
    };
    Ok(BooksOutput {
        output,
        parsed: Some(parsed),
    })
}

/// Reads a script, and prints what `books_of` makes of its bytes. A command that fails prints why, and nothing else;
/// nothing is written after a write that failed.
pub fn books<F: Form, R: Read, W: Write>(
    form: &F,
    alloc: Global,
    reader: &mut R,
    writer: &mut W,
) -> BooksEnded
    ensures writes { Writes (PrintsScript F.prints_books F.prints_fault (R.remaining reader.old))
        (W.contents writer.old) (W.contents writer.new) result.ended.ending }
    ensures parsed { AreParsedFrom (R.remaining reader.old) result.ended.ending result.parsed }
    ensures whole { (script : Parsed) → (binding : Arguments)
        → HasWholeFeed (history_of script) binding }
    ensures holds { (script : Parsed) → (binding : Arguments)
        → ListsBalances (history_of script) binding }
    ensures bounded { ConsumesAtMost (max_bytes + 1)
        (R.remaining reader.old) (R.remaining reader.new) }
{
    match read_books(form, alloc, reader) {
        Ok(BooksOutput { output, parsed }) => BooksEnded {
            ended: print_output(form, writer, Ok(output)),
            parsed,
        },
        Err(fault) => BooksEnded {
            ended: print_output(form, writer, Err(fault)),
            parsed: None,
        },
    }
}

#[tactic(auto, using(crate::proofs::OutputLemmas::printed_of_script))]
fn read_books<F: Form, R: Read>(
    form: &F,
    alloc: Global,
    reader: &mut R,
) -> Result<BooksOutput, ProgramFault>
    ensures output { IfOk result (λ made. PrintsScript F.prints_books F.prints_fault
        (R.remaining reader.old) made.output.ending made.output.text.items) }
    ensures parsed { IfOk result (λ made. AreParsedFrom (R.remaining reader.old)
        made.output.ending made.parsed) }
    ensures fault { IfErr result MayFailScript }
    ensures bounded { ConsumesAtMost (max_bytes + 1)
        (R.remaining reader.old) (R.remaining reader.new) }
{
    let bytes = read_file(alloc, reader)?;
    Ok(books_of(form, alloc, &bytes)?)
}
