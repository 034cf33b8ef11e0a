//! What `follow` prints as JSON.

ghost use Rattle.std.specs.Prelude.{◌≡◌, ◌++◌, OnOk};
ghost use Rattle.cdc_output.specs.Lines.{json_line};
ghost use Rattle.cdc_follow_command.specs.JsonLines.{after_end_value, followed_value, gap_value, saved_value};
ghost use Rattle.cdc_follow_command.specs.JsonLines.{stop_lines};

use crate::forms::FollowForm;
use cdc_follow::{Counts, Entry, Follower, Stop};
use cdc_output::Field::{Number, Wide};
use cdc_output::{Json, Lines, Member, push_subscriber};
use cdc_streams::push_bad_line_json;
use std::alloc::{AllocError, Global};

impl FollowForm for Json {
    ghost use Rattle.cdc_follow_command.specs.JsonLines.{end_lines, saved_lines};

    ghost prints_save = { saved_lines };

    ghost prints_end = { end_lines };

    fn save(&self, alloc: Global, counts: Counts, timestamp: u64) -> Result<Vec<u8>, AllocError> {
        let mut lines = Lines::new(alloc);
        push_saved(alloc, &mut lines, counts, timestamp)?;
        Ok(lines.into_text())
    }

    fn end(
        &self,
        alloc: Global,
        counts: Counts,
        follower: &Follower,
        stop: Stop,
    ) -> Result<Vec<u8>, AllocError> {
        let mut lines = Lines::new(alloc);
        push_subscriber(alloc, &mut lines, 1, follower.subscriber())?;
        push_stop(alloc, &mut lines, follower.seen(), stop)?;
        push_followed(alloc, &mut lines, counts)?;
        Ok(lines.into_text())
    }
}

/// Adds the line of why following stopped, where the last event seen has this timestamp; none at the end.
pub(crate) fn push_stop(
    alloc: Global,
    lines: &mut Lines,
    seen: u64,
    stop: Stop,
) -> Result<(), AllocError>
    ensures { OnOk result (lines.new.text.items
        ≡ lines.old.text.items ++ stop_lines seen stop) }
{
    match stop {
        Stop::AtEnd => Ok(()),
        Stop::Gap(line, entry) => push_gap(alloc, lines, seen, line, entry),
        Stop::AfterEnd(line, _) => push_after_end(alloc, lines, seen, line),
        Stop::BadLine(line, error) => push_bad_line_json(alloc, lines, line, error),
    }
}

/// Adds the line of a save, with the counts of the lines so far. `timestamp`: that of the last event seen.
fn push_saved(
    alloc: Global,
    lines: &mut Lines,
    counts: Counts,
    timestamp: u64,
) -> Result<(), AllocError>
    ensures { OnOk result (lines.new.text.items
        ≡ lines.old.text.items ++ json_line (saved_value counts timestamp)) }
{
    lines.push(
        alloc,
        "saved",
        &[
            Member("timestamp", Wide(timestamp.into())),
            Member("applied", Number(counts.applied)),
            Member("duplicates", Number(counts.duplicates)),
            Member("passed", Number(counts.passed)),
            Member("gaps_skipped", Number(counts.gaps)),
            Member("lines_skipped", Number(counts.lines_skipped)),
        ],
    )
}

/// Adds the line of the counts of all lines.
pub(crate) fn push_followed(
    alloc: Global,
    lines: &mut Lines,
    counts: Counts,
) -> Result<(), AllocError>
    ensures { OnOk result (lines.new.text.items
        ≡ lines.old.text.items ++ json_line (followed_value counts)) }
{
    lines.push(
        alloc,
        "followed",
        &[
            Member("applied", Number(counts.applied)),
            Member("duplicates", Number(counts.duplicates)),
            Member("passed", Number(counts.passed)),
            Member("gaps_skipped", Number(counts.gaps)),
            Member("lines_skipped", Number(counts.lines_skipped)),
        ],
    )
}

/// Adds the line of a gap before the entry of the line of this number.
fn push_gap(
    alloc: Global,
    lines: &mut Lines,
    seen: u64,
    line: u64,
    entry: Entry,
) -> Result<(), AllocError>
    ensures { OnOk result (lines.new.text.items
        ≡ lines.old.text.items ++ json_line (gap_value seen line entry)) }
{
    lines.push(
        alloc,
        "gap",
        &[
            Member("line", Number(line)),
            Member("after", Wide(entry.previous.unwrap_or(0).into())),
            Member("expected_after", Wide(seen.into())),
        ],
    )
}

/// Adds the line of an entry that contradicts the end, which came after the event of this timestamp.
fn push_after_end(alloc: Global, lines: &mut Lines, seen: u64, line: u64) -> Result<(), AllocError>
    ensures { OnOk result (lines.new.text.items
        ≡ lines.old.text.items ++ json_line (after_end_value seen line)) }
{
    lines.push(
        alloc,
        "after_end",
        &[
            Member("line", Number(line)),
            Member("ended_after", Wide(seen.into())),
        ],
    )
}
