//! What `books` reports of a script, in whichever form it is printed.

ghost use Rattle.std.specs.Prelude.{◌≡◌, IfOk, map};
ghost use Rattle.cdc_laws.specs.Line.{line};
ghost use Rattle.cdc_ledger.specs.History.{empty_history};
ghost use Rattle.cdc_commands.specs.BookReports.{AreBatchesOf};
ghost use Rattle.cdc_commands.specs.Feeds.{kept_by};
ghost use Rattle.cdc_commands.specs.Printed.{answers_to, history_of};

use crate::batches::{Answered, TakenBatches, take_batches};
use crate::feeding::subscribers_of_log;
use cdc_script::{ClientBatch, Script, ScriptLines};
use cdc_subscriber::Subscriber;
use cdc_types::Items;
use std::alloc::{AllocError, Global};

/// What `books` reports of a script.
#[derive(Drop)]
pub struct BooksReport {
    /// The answer to each batch, in the order of the script.
    pub answers: Vec<Answered>,
    /// The subscribers, each of which has taken its whole queue.
    pub subscribers: Vec<Subscriber>,
}

/// The batches of a script, and where they and their requests stand.
#[derive(Drop)]
pub struct ParsedBatches {
    /// The batches, in the order of their lines.
    pub batches: Items<ClientBatch>,
    /// The lines.
    pub lines: ScriptLines,
}

/// The report of `books`, and the script's batches.
pub fn books_report(
    alloc: Global,
    script: Script,
) -> Result<(BooksReport, ParsedBatches), AllocError>
    ensures answers { IfOk result (λ made. made.0.answers.items
        ≡ answers_to 1 empty_history script.batches) }
    ensures subscribers { IfOk result (λ made. made.0.subscribers.items
        ≡ map (kept_by (line (history_of script))) script.bindings) }
    ensures parsed { IfOk result (λ made. AreBatchesOf script made.1) }
{
    let TakenBatches { ledger, answers } = take_batches(alloc, &script)?;
    let Script {
        bindings,
        batches,
        lines,
    } = script;
    let subscribers = subscribers_of_log(alloc, bindings.into_vec(), ledger.log())?;
    let report = BooksReport {
        answers,
        subscribers,
    };
    Ok((report, ParsedBatches { batches, lines }))
}
