//! What checked following prints as JSON.

ghost use Rattle.std.specs.Prelude.{◌≡◌, ◌++◌, OnOk};
ghost use Rattle.cdc_audit.specs.declared.refusals.Refusal.{Refusal as Refusals};
ghost use Rattle.cdc_checked_follow.specs.declared.streams.CheckStop.{CheckStop as Stops};
ghost use Rattle.cdc_checked_command.specs.JsonLines.{book_lines, followed_value, gap_members, gap_value};
ghost use Rattle.cdc_checked_command.specs.JsonLines.{mismatch_members, saved_value, stop_lines};
ghost use Rattle.cdc_checked_command.specs.Texts.{kept_of};
ghost use Rattle.cdc_output.specs.Lines.{account_value, json_line, subscriber_value};
ghost use Rattle.cdc_subscriber.specs.Book.{entry_for};
ghost use Rattle.serde_json.specs.Data.{no_members};

use crate::forms::CheckForm;
use cdc_audit::{Mismatch, Refusal};
use cdc_checked_follow::{CheckStop, CheckedFollower};
use cdc_follow::Counts;
use cdc_keys::KeyedMap;
use cdc_output::Field::{Flag, Number, Text, Wide};
use cdc_output::{Json, Lines, Member};
use cdc_streams::push_bad_line_json;
use cdc_types::Balances;
use std::alloc::{AllocError, Global};

impl CheckForm for Json {
    ghost use Rattle.cdc_checked_command.specs.JsonLines.{end_lines, saved_lines};

    ghost prints_save = { saved_lines };

    ghost prints_end = { end_lines };

    fn save(&self, alloc: Global, counts: Counts, timestamp: u64) -> Result<Vec<u8>, AllocError> {
        let mut lines = Lines::new(alloc);
        push_saved(alloc, &mut lines, counts, timestamp)?;
        Ok(lines.into_text())
    }

    fn end(
        &self,
        alloc: Global,
        counts: Counts,
        follower: &CheckedFollower,
        stop: CheckStop,
    ) -> Result<Vec<u8>, AllocError> {
        let mut lines = Lines::new(alloc);
        push_checked(alloc, &mut lines, follower)?;
        push_book(alloc, &mut lines, follower.book())?;
        push_stop(alloc, &mut lines, stop)?;
        push_followed(alloc, &mut lines, counts)?;
        Ok(lines.into_text())
    }
}

/// Adds the line of a save, with the counts of the lines so far. `timestamp`: the greatest one of an applied event.
fn push_saved(
    alloc: Global,
    lines: &mut Lines,
    counts: Counts,
    timestamp: u64,
) -> Result<(), AllocError>
    ensures { OnOk result (lines.new.text.items
        ≡ lines.old.text.items ++ json_line (saved_value counts timestamp)) }
{
    lines.push(
        alloc,
        "saved",
        &[
            Member("timestamp", Wide(timestamp.into())),
            Member("applied", Number(counts.applied)),
            Member("duplicates", Number(counts.duplicates)),
            Member("passed", Number(counts.passed)),
            Member("gaps_skipped", Number(counts.gaps)),
            Member("lines_skipped", Number(counts.lines_skipped)),
        ],
    )
}

/// Adds the line of the counts of all lines.
pub(crate) fn push_followed(
    alloc: Global,
    lines: &mut Lines,
    counts: Counts,
) -> Result<(), AllocError>
    ensures { OnOk result (lines.new.text.items
        ≡ lines.old.text.items ++ json_line (followed_value counts)) }
{
    lines.push(
        alloc,
        "followed",
        &[
            Member("applied", Number(counts.applied)),
            Member("duplicates", Number(counts.duplicates)),
            Member("passed", Number(counts.passed)),
            Member("gaps_skipped", Number(counts.gaps)),
            Member("lines_skipped", Number(counts.lines_skipped)),
        ],
    )
}

/// Adds the line of how far a follower is, as that of the subscriber with the number 1.
fn push_checked(
    alloc: Global,
    lines: &mut Lines,
    follower: &CheckedFollower,
) -> Result<(), AllocError>
    ensures { OnOk result (lines.new.text.items
        ≡ lines.old.text.items ++ json_line (subscriber_value 1 (kept_of follower.now))) }
{
    lines.push(
        alloc,
        "subscriber",
        &[
            Member("subscriber", Number(1)),
            Member("applied", Number(follower.applied_count())),
            Member("last", Wide(follower.last().into())),
            Member("ended", Flag(follower.ended())),
            Member("closed", Flag(false)),
        ],
    )
}

/// Adds the lines of the accounts of a book.
fn push_book(
    alloc: Global,
    lines: &mut Lines,
    book: &KeyedMap<u128, Balances>,
) -> Result<(), AllocError>
    ensures { OnOk result (lines.new.text.items ≡ lines.old.text.items ++ book_lines book.now.entries) }
{
    for (id, balances) in book.iter() {
        push_account(alloc, lines, *id, *balances)?;
    }
    Ok(())
}

/// Adds the line of an account of a book, as that of the subscriber with the number 1.
fn push_account(
    alloc: Global,
    lines: &mut Lines,
    id: u128,
    balances: Balances,
) -> Result<(), AllocError>
    ensures { OnOk result (lines.new.text.items
        ≡ lines.old.text.items ++ json_line (account_value 1 (entry_for (id, balances)))) }
{
    lines.push(
        alloc,
        "account",
        &[
            Member("subscriber", Number(1)),
            Member("id", Wide(id)),
            Member("debits_pending", Wide(balances.debits_pending)),
            Member("debits_posted", Wide(balances.debits_posted)),
            Member("credits_pending", Wide(balances.credits_pending)),
            Member("credits_posted", Wide(balances.credits_posted)),
        ],
    )
}

/// Adds the line of why following stopped; none at the end.
pub(crate) fn push_stop(alloc: Global, lines: &mut Lines, stop: CheckStop) -> Result<(), AllocError>
    ensures { OnOk result (lines.new.text.items ≡ lines.old.text.items ++ stop_lines stop) }
{
    match stop {
        CheckStop::AtEnd => Ok(()),
        CheckStop::Gap(line, why) => push_gap(alloc, lines, line, why),
        CheckStop::BadLine(line, error) => push_bad_line_json(alloc, lines, line, error),
    }
}

/// Adds the line of an event that is refused, on the line of this number.
fn push_gap(alloc: Global, lines: &mut Lines, line: u64, why: Refusal) -> Result<(), AllocError>
    ensures { OnOk result (lines.new.text.items ≡ lines.old.text.items ++ stop_lines (Stops.Gap line why)) }
{
    let rule = why.name();
    match why {
        Refusal::Balance(mismatch) => push_mismatch(alloc, lines, line, rule, mismatch),
        Refusal::NotPending(transfer) => push_pending(alloc, lines, line, rule, transfer),
        _ => push_rule(alloc, lines, line, rule),
    }
}

/// Adds the line of an event that is refused by this rule, with the balance that doesn't follow.
fn push_mismatch(
    alloc: Global,
    lines: &mut Lines,
    line: u64,
    rule: &str,
    mismatch: Mismatch,
) -> Result<(), AllocError>
    ensures { OnOk result (lines.new.text.items
        ≡ lines.old.text.items ++ json_line (gap_value line rule.now (mismatch_members mismatch))) }
{
    lines.push(
        alloc,
        "gap",
        &[
            Member("line", Number(line)),
            Member("rule", Text(rule)),
            Member("account", Wide(mismatch.account)),
            Member("field", Text(mismatch.field.name())),
            Member("shown", Wide(mismatch.shown)),
            Member("before", Wide(mismatch.before)),
            Member("added", Wide(mismatch.added)),
            Member("released", Wide(mismatch.released)),
        ],
    )
}

/// Adds the line of an event that is refused by this rule, with the pending transfer that isn't open.
fn push_pending(
    alloc: Global,
    lines: &mut Lines,
    line: u64,
    rule: &str,
    transfer: u128,
) -> Result<(), AllocError>
    ensures { OnOk result (lines.new.text.items ≡ lines.old.text.items
        ++ json_line (gap_value line rule.now (gap_members (Refusals.NotPending transfer)))) }
{
    lines.push(
        alloc,
        "gap",
        &[
            Member("line", Number(line)),
            Member("rule", Text(rule)),
            Member("transfer", Wide(transfer)),
        ],
    )
}

/// Adds the line of an event that is refused by this rule.
fn push_rule(alloc: Global, lines: &mut Lines, line: u64, rule: &str) -> Result<(), AllocError>
    ensures { OnOk result (lines.new.text.items ≡ lines.old.text.items ++ json_line (gap_value line rule.now no_members)) }
{
    lines.push(
        alloc,
        "gap",
        &[Member("line", Number(line)), Member("rule", Text(rule))],
    )
}
