//! Why items of a script weren't accepted: its batches are submitted to a ledger again, and the answers are reported.

use crate::items::ItemLines;
use cdc_commands::ParsedBatches;
use cdc_ledger::Ledger;
use cdc_script::ClientBatch;
use cdc_types::Batch;
use std::alloc::Global;

/// A line for each item of a script's batches that wasn't accepted, and for each batch that was refused. The script is
/// named to a person by this name. There is nothing if memory ran out.
pub fn books_lines(alloc: Global, name: &str, parsed: ParsedBatches) -> Option<String> {
    let ParsedBatches { batches, lines } = parsed;
    let mut lines = ItemLines::new(alloc, name, lines);
    push_batches(alloc, batches.as_slice(), &mut lines);
    lines.finish().ok()
}

/// Submits batches to a new ledger, and adds the lines for each.
pub(crate) fn push_batches(alloc: Global, batches: &[ClientBatch], lines: &mut ItemLines<'_>) {
    let mut ledger = Ledger::new(alloc);
    for item in batches {
        push_batch(alloc, &item.batch, &mut ledger, lines);
    }
}

/// Submits a batch to a ledger, and adds its lines.
pub(crate) fn push_batch(
    alloc: Global,
    batch: &Batch,
    ledger: &mut Ledger,
    lines: &mut ItemLines<'_>,
) {
    match ledger.submit(alloc, batch) {
        Ok(results) => lines.push_results(batch, &results, ledger),
        Err(refusal) => lines.push_refusal(batch, refusal),
    }
}
