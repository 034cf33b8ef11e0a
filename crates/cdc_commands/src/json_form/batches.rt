//! The lines of batches.

ghost use Rattle.std.specs.Prelude.{◌≡◌, ◌++◌, IfOk, OnOk, map};
ghost use Rattle.cdc_commands.specs.JsonValues.{account_result, answered_values, batch_value};
ghost use Rattle.cdc_output.specs.Lines.{json_line, json_lines};
ghost use Rattle.cdc_commands.specs.JsonValues.{results_value, transfer_result};
ghost use Rattle.cdc_output.specs.Private.Sending.{entry_value};

use crate::batches::Answered;
use cdc_ledger::BatchError;
use cdc_output::Field::{Number, Table, Text};
use cdc_output::{Lines, Member, Named};
use cdc_types::{AccountResult, BatchResults, TransferResult};
use std::alloc::{AllocError, Global};

/// Adds one line for each batch, with the ledger's answer.
pub(crate) fn push_answers(
    alloc: Global,
    lines: &mut Lines,
    answers: &[Answered],
) -> Result<(), AllocError>
    ensures { OnOk result (lines.new.text.items
        ≡ lines.old.text.items ++ json_lines (answered_values answers.now)) }
{
    for answered in answers {
        push_batch(alloc, lines, answered.number, &answered.answer)?;
    }
    Ok(())
}

/// Adds the line of the batch with this number, from 1, and the ledger's answer.
pub fn push_batch(
    alloc: Global,
    lines: &mut Lines,
    batch: u64,
    answer: &Result<BatchResults, BatchError>,
) -> Result<(), AllocError>
    ensures { OnOk result (lines.new.text.items
        ≡ lines.old.text.items ++ json_line (batch_value batch answer.now)) }
{
    match answer {
        Ok(BatchResults::Accounts(results)) => {
            let entries = account_entries(alloc, results.as_slice())?;
            push_results(alloc, lines, batch, entries.as_slice())
        }
        Ok(BatchResults::Transfers(results)) => {
            let entries = transfer_entries(alloc, results.as_slice())?;
            push_results(alloc, lines, batch, entries.as_slice())
        }
        Ok(BatchResults::Pulsed(count)) => push_pulse(alloc, lines, batch, *count),
        Err(refusal) => push_refused(alloc, lines, batch, *refusal),
    }
}

/// Adds the line of a batch that wasn't refused as a whole.
fn push_results(
    alloc: Global,
    lines: &mut Lines,
    batch: u64,
    results: &[Named],
) -> Result<(), AllocError>
    ensures { OnOk result (lines.new.text.items
        ≡ lines.old.text.items ++ json_line (results_value batch (map entry_value results.now))) }
{
    lines.push(
        alloc,
        "batch",
        &[
            Member("batch", Number(batch)),
            Member("results", Table(results)),
        ],
    )
}

/// Adds the line of a pulse. `expired` is how many pending transfers expired.
fn push_pulse(alloc: Global, lines: &mut Lines, batch: u64, expired: u64) -> Result<(), AllocError>
    ensures { OnOk result (lines.new.text.items
        ≡ lines.old.text.items ++ json_line (batch_value batch (Ok (BatchResults.Pulsed expired)))) }
{
    lines.push(
        alloc,
        "pulse",
        &[
            Member("batch", Number(batch)),
            Member("expired", Number(expired)),
        ],
    )
}

/// Adds the line of a batch that was refused as a whole.
fn push_refused(
    alloc: Global,
    lines: &mut Lines,
    batch: u64,
    refusal: BatchError,
) -> Result<(), AllocError>
    ensures { OnOk result (lines.new.text.items
        ≡ lines.old.text.items ++ json_line (batch_value batch (Err refusal))) }
{
    lines.push(
        alloc,
        "refused_batch",
        &[
            Member("batch", Number(batch)),
            Member("number", Number(refusal.number().into())),
            Member("name", Text(refusal.name())),
        ],
    )
}

/// The number and the name of each result.
fn account_entries(alloc: Global, results: &[AccountResult]) -> Result<Vec<Named>, AllocError>
    ensures { IfOk result (λ entries. map entry_value entries.items
        ≡ map account_result results.now) }
{
    let mut entries = Vec::with_capacity(alloc, results.len())?;
    for result in results {
        let (number, name) = (result.number(), result.name());
        entries.push(Named { number, name })?;
    }
    Ok(entries)
}

/// The number and the name of each result.
fn transfer_entries(alloc: Global, results: &[TransferResult]) -> Result<Vec<Named>, AllocError>
    ensures { IfOk result (λ entries. map entry_value entries.items
        ≡ map transfer_result results.now) }
{
    let mut entries = Vec::with_capacity(alloc, results.len())?;
    for result in results {
        let (number, name) = (result.number(), result.name());
        entries.push(Named { number, name })?;
    }
    Ok(entries)
}
