//! The forms in which `consume` reports.

ghost use Rattle.std.specs.Prelude.{◌≡◌, ◌++◌, ℕ, List, IfOk, OnOk};
ghost use Rattle.cdc_follow.specs.declared.counts.Counts.{Counts as LineCounts};
ghost use Rattle.cdc_consume_command.specs.declared.endings.Outcome.{Outcome as Reported};
ghost use Rattle.cdc_consume_command.specs.JsonLines.{end_value, progress_value};
ghost use Rattle.cdc_consume_command.specs.Texts.{counts_text, delivery_text, ending_text, place_text, yes_or_no};
ghost use Rattle.cdc_output.specs.Lines.{json_line};

use crate::endings::Outcome;
use cdc_follow::Counts;
use cdc_output::Field::{self, Flag, Number, Wide};
use cdc_output::{Json, Lines, Member, Text, push, push_named};
use std::alloc::{AllocError, Global};

/// A form in which `consume` reports.
pub trait ConsumeForm {
    /// What is reported at the end: of how the command ended, of the counts of the deliveries, and of the timestamp of
    /// the last event seen.
    ghost reports_end: { Reported → LineCounts → ℕ → List ℕ };

    /// What is reported before the end: of the counts of the deliveries so far, and of the timestamp of the last event
    /// seen.
    ghost reports_progress: { LineCounts → ℕ → List ℕ };

    /// The report at the end. `seen`: the timestamp of the last event seen, in nanoseconds.
    fn end(
        &self,
        alloc: Global,
        outcome: Outcome<'_>,
        counts: Counts,
        seen: u64,
    ) -> Result<Vec<u8>, AllocError>
        ensures { IfOk result (λ text. text.items ≡ reports_end outcome.entry counts seen) };

    /// The report before the end. `seen`: the timestamp of the last event seen, in nanoseconds.
    fn progress(&self, alloc: Global, counts: Counts, seen: u64) -> Result<Vec<u8>, AllocError>
        ensures { IfOk result (λ text. text.items ≡ reports_progress counts seen) };
}

impl ConsumeForm for Text {
    ghost use Rattle.cdc_consume_command.specs.Texts.{end_text, progress_text};

    ghost reports_end = { end_text };

    ghost reports_progress = { progress_text };

    fn end(
        &self,
        alloc: Global,
        outcome: Outcome<'_>,
        counts: Counts,
        seen: u64,
    ) -> Result<Vec<u8>, AllocError> {
        let mut text = Vec::new(alloc);
        push_ending(&mut text, outcome)?;
        push_delivery(&mut text, outcome)?;
        push_counts(&mut text, counts)?;
        push_place(&mut text, seen)?;
        Ok(text)
    }

    fn progress(&self, alloc: Global, counts: Counts, seen: u64) -> Result<Vec<u8>, AllocError> {
        let mut text = Vec::new(alloc);
        push(&mut text, "status running\n")?;
        push_counts(&mut text, counts)?;
        push_place(&mut text, seen)?;
        Ok(text)
    }
}

/// The word of a flag.
fn yes_no(flag: bool) -> &'static str
    ensures { result.now ≡ yes_or_no flag }
{
    if flag { "yes" } else { "no" }
}

/// Adds the lines of how the command ended.
fn push_ending(text: &mut Vec<u8>, outcome: Outcome<'_>) -> Result<(), AllocError>
    ensures { OnOk result (text.new.items ≡ text.old.items ++ ending_text outcome.entry) }
{
    push_named(text, "status ", outcome.status)?;
    push(text, "\nreason ")?;
    push(text, outcome.reason)?;
    push_named(text, "\ncode ", outcome.code)?;
    push(text, "\ntext ")?;
    push(text, outcome.text)?;
    push(text, "\n")
}

/// Adds the lines of the delivery at which following stopped.
fn push_delivery(text: &mut Vec<u8>, outcome: Outcome<'_>) -> Result<(), AllocError>
    ensures { OnOk result (text.new.items ≡ text.old.items ++ delivery_text outcome.entry) }
{
    push_named(text, "tag ", outcome.tag)?;
    push(text, "\nredelivered ")?;
    push(text, yes_no(outcome.redelivered))?;
    push_named(text, "\ndelivery_count ", outcome.delivery_count)?;
    push_named(text, "\nparked ", outcome.parked)?;
    push(text, "\n")?;
    Ok(())
}

/// Adds the lines of the counts.
fn push_counts(text: &mut Vec<u8>, counts: Counts) -> Result<(), AllocError>
    ensures { OnOk result (text.new.items ≡ text.old.items ++ counts_text counts) }
{
    push_named(text, "applied ", counts.applied)?;
    push_named(text, "\nduplicates ", counts.duplicates)?;
    push_named(text, "\npassed ", counts.passed)?;
    push_named(text, "\ngaps_skipped ", counts.gaps)?;
    push(text, "\n")?;
    Ok(())
}

/// Adds the line of the timestamp of the last event seen.
fn push_place(text: &mut Vec<u8>, seen: u64) -> Result<(), AllocError>
    ensures { OnOk result (text.new.items ≡ text.old.items ++ place_text seen) }
{
    push_named(text, "seen ", seen)?;
    push(text, "\n")
}

impl ConsumeForm for Json {
    ghost use Rattle.cdc_consume_command.specs.JsonLines.{end_lines, progress_lines};

    ghost reports_end = { end_lines };

    ghost reports_progress = { progress_lines };

    fn end(
        &self,
        alloc: Global,
        outcome: Outcome<'_>,
        counts: Counts,
        seen: u64,
    ) -> Result<Vec<u8>, AllocError> {
        let mut lines = Lines::new(alloc);
        push_end(alloc, &mut lines, outcome, counts, seen)?;
        Ok(lines.into_text())
    }

    fn progress(&self, alloc: Global, counts: Counts, seen: u64) -> Result<Vec<u8>, AllocError> {
        let mut lines = Lines::new(alloc);
        push_progress(alloc, &mut lines, counts, seen)?;
        Ok(lines.into_text())
    }
}

/// Adds the line of the end.
fn push_end(
    alloc: Global,
    lines: &mut Lines,
    outcome: Outcome<'_>,
    counts: Counts,
    seen: u64,
) -> Result<(), AllocError>
    ensures { OnOk result (lines.new.text.items
        ≡ lines.old.text.items ++ json_line (end_value outcome.entry counts seen)) }
{
    lines.push(
        alloc,
        "consumed",
        &[
            Member("status", Number(outcome.status as u64)),
            Member("reason", Field::Text(outcome.reason)),
            Member("code", Number(outcome.code as u64)),
            Member("text", Field::Text(outcome.text)),
            Member("tag", Number(outcome.tag)),
            Member("redelivered", Flag(outcome.redelivered)),
            Member("delivery_count", Number(outcome.delivery_count)),
            Member("parked", Number(outcome.parked)),
            Member("applied", Number(counts.applied)),
            Member("duplicates", Number(counts.duplicates)),
            Member("passed", Number(counts.passed)),
            Member("gaps_skipped", Number(counts.gaps)),
            Member("seen", Wide(seen.into())),
        ],
    )
}

/// Adds the line of the progress.
fn push_progress(
    alloc: Global,
    lines: &mut Lines,
    counts: Counts,
    seen: u64,
) -> Result<(), AllocError>
    ensures { OnOk result (lines.new.text.items
        ≡ lines.old.text.items ++ json_line (progress_value counts seen)) }
{
    lines.push(
        alloc,
        "consuming",
        &[
            Member("applied", Number(counts.applied)),
            Member("duplicates", Number(counts.duplicates)),
            Member("passed", Number(counts.passed)),
            Member("gaps_skipped", Number(counts.gaps)),
            Member("seen", Wide(seen.into())),
        ],
    )
}
