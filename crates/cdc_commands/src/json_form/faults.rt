//! The lines of faults.

ghost use Rattle.std.specs.Prelude.{◌≡◌, ◌++◌, IfOk, OnOk};
ghost use Rattle.cdc_commands.specs.FaultWords.{bytes_at};
ghost use Rattle.cdc_output.specs.Lines.{json_line};
ghost use Rattle.cdc_commands.specs.JsonValues.{file_fault_value};
ghost use Rattle.cdc_commands.specs.JsonReports.{ReportsFault};

use crate::words::fault_word;
use cdc_output::Field::{Number, Text};
use cdc_output::{Lines, Member};
use cdc_script::ScriptFault;
use std::alloc::{AllocError, Global};

/// The line for a fault in a file with these bytes.
pub(crate) fn file_fault(
    alloc: Global,
    file: &str,
    bytes: &[u8],
    fault: ScriptFault,
) -> Result<Lines, AllocError>
    ensures { IfOk result (λ lines. ReportsFault file.now (bytes_at bytes.now fault.word) fault
        lines.text.items) }
{
    let word = fault_word(alloc, bytes, fault)?;
    let mut lines = Lines::new(alloc);
    push_fault(alloc, &mut lines, file, fault, word.as_str())?;
    Ok(lines)
}

/// Adds the line for a fault of a file, at this word.
fn push_fault<'a>(
    alloc: Global,
    lines: &mut Lines,
    file: &'a str,
    fault: ScriptFault,
    word: &'a str,
) -> Result<(), AllocError>
    ensures { OnOk result (lines.new.text.items ≡ lines.old.text.items
        ++ json_line (file_fault_value file.now fault word.now)) }
{
    lines.push(
        alloc,
        "file_fault",
        &[
            Member("file", Text(file)),
            Member("line", Number(fault.line)),
            Member("column", Number(fault.column)),
            Member("word", Text(word)),
            Member("name", Text(fault.kind.name())),
        ],
    )
}
