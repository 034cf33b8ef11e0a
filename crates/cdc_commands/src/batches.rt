//! Submits the batches of a script to a ledger.

ghost use Rattle.std.specs.Prelude.{◌≡◌, ◌++◌, ◌<◌, IfOk, OnErr, OnOk, length};
ghost use Rattle.cdc_ledger.specs.History.{empty_history};
ghost use Rattle.cdc_ledger.specs.Submit.{submit, history_or};
ghost use Rattle.cdc_commands.specs.Printed.{answer, answers_to, history_after, history_of};

use cdc_ledger::{BatchError, Ledger};
use cdc_script::{ClientBatch, Script};
use cdc_types::{Batch, BatchResults};
use std::alloc::{AllocError, Global};

/// The ledger's answer to a batch.
#[derive(Drop)]
pub struct Answered {
    /// The number of the batch in its script, from 1.
    pub number: u64,
    /// The results of its requests, or why the ledger refused the whole batch.
    pub answer: Result<BatchResults, BatchError>,
}

/// A ledger that has taken the batches of a script, and is closed after them.
#[derive(Drop)]
pub struct TakenBatches {
    pub ledger: Ledger,
    /// The answer to each batch, in the order of the script.
    pub answers: Vec<Answered>,
}

/// Submits the batches of a script to a ledger, in the order of their lines, and closes it. A script without batches
/// needs no memory.
pub fn take_batches(alloc: Global, script: &Script) -> Result<TakenBatches, AllocError>
    ensures ledger { IfOk result (λ taken. taken.ledger ≡ history_of script.now) }
    ensures answers { IfOk result (λ taken. taken.answers.items
        ≡ answers_to 1 empty_history script.now.batches) }
    ensures memory { OnErr result (0 < length script.now.batches) }
{
    let mut ledger = Ledger::new(alloc);
    let mut answers = Vec::new(alloc);
    push_batches(alloc, &mut ledger, &mut answers, script.batches.as_slice())?;
    ledger.close();
    Ok(TakenBatches { ledger, answers })
}

/// Submits batches to a ledger, in order, and adds the answer to each.
fn push_batches(
    alloc: Global,
    ledger: &mut Ledger,
    answers: &mut Vec<Answered>,
    batches: &[ClientBatch],
) -> Result<(), AllocError>
    ensures answers { OnOk result (answers.new.items
        ≡ answers.old.items ++ answers_to 1 ledger.old batches.now) }
    ensures history { OnOk result (ledger.new ≡ history_after ledger.old batches.now) }
    ensures memory { OnErr result (0 < length batches.now) }
{
    for (place, item) in batches.iter().enumerate() {
        let answer = submit_batch(alloc, ledger, &item.batch)?;
        let number = place as u64 + 1;
        answers.push(Answered { number, answer })?;
    }
    Ok(())
}

/// Submits a batch to a ledger. The inner error is the ledger's refusal, the outer one means that memory ran out.
fn submit_batch(
    alloc: Global,
    ledger: &mut Ledger,
    batch: &Batch,
) -> Result<Result<BatchResults, BatchError>, AllocError>
    ensures answer { IfOk result (λ given. given ≡ answer (submit ledger.old batch.now)) }
    ensures history { OnOk result (ledger.new
        ≡ history_or ledger.old (submit ledger.old batch.now)) }
{
    match ledger.submit(alloc, batch) {
        Ok(results) => Ok(Ok(results)),
        Err(BatchError::OutOfMemory) => Err(AllocError),
        Err(refusal) => Ok(Err(refusal)),
    }
}
