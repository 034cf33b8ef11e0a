//! What is printed of every stream: its saves, and a line that is no entry.

ghost use Rattle.std.specs.Prelude.{◌≡◌, ◌++◌, ℕ, List, IfOk, OnOk};
ghost use Rattle.cdc_output.specs.Lines.{json_line};
ghost use Rattle.cdc_streams.specs.Lines.{bad_line_text, bad_line_value};

use cdc_follow::LineError;
use cdc_output::Field::{self, Number, Wide};
use cdc_output::{FaultForm, Json, Lines, Member, Text, push, push_named};
use std::alloc::{AllocError, Global};

/// A form in which a command over a stream reports its saves.
pub trait StreamForm: FaultForm {
    /// What is printed of a save at which the last event has this timestamp.
    ghost prints_saved: { ℕ → List ℕ };

    /// The line of a save at which the last event has this timestamp, in nanoseconds.
    fn saved(&self, alloc: Global, timestamp: u64) -> Result<Vec<u8>, AllocError>
        ensures { IfOk result (λ text. text.items ≡ prints_saved timestamp) };
}

impl StreamForm for Text {
    ghost use Rattle.cdc_streams.specs.Lines.{saved_text};

    ghost prints_saved = { saved_text };

    fn saved(&self, alloc: Global, timestamp: u64) -> Result<Vec<u8>, AllocError> {
        let mut text = Vec::new(alloc);
        push_named(&mut text, "saved ", timestamp)?;
        push(&mut text, "\n")?;
        Ok(text)
    }
}

impl StreamForm for Json {
    ghost use Rattle.cdc_streams.specs.Lines.{saved_lines};

    ghost prints_saved = { saved_lines };

    fn saved(&self, alloc: Global, timestamp: u64) -> Result<Vec<u8>, AllocError> {
        let mut lines = Lines::new(alloc);
        lines.push(
            alloc,
            "saved",
            &[Member("timestamp", Wide(timestamp.into()))],
        )?;
        Ok(lines.into_text())
    }
}

/// Adds the text of a line that is no entry, for this reason.
pub fn push_bad_line(text: &mut Vec<u8>, line: u64, error: LineError) -> Result<(), AllocError>
    ensures { OnOk result (text.new.items ≡ text.old.items ++ bad_line_text line error) }
{
    push_named(text, "fault: line ", line)?;
    push(text, ": ")?;
    push(text, error.name())?;
    push(text, "\n")?;
    Ok(())
}

/// Adds the JSON line of a line that is no entry, for this reason.
pub fn push_bad_line_json(
    alloc: Global,
    lines: &mut Lines,
    line: u64,
    error: LineError,
) -> Result<(), AllocError>
    ensures { OnOk result (lines.new.text.items
        ≡ lines.old.text.items ++ json_line (bad_line_value line error)) }
{
    lines.push(
        alloc,
        "line_fault",
        &[
            Member("line", Number(line)),
            Member("name", Field::Text(error.name())),
        ],
    )
}
