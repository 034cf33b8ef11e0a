//! The JSON line of what comes of a line of a stream that is checked.

ghost use Rattle.std.specs.Prelude.{◌≡◌, ◌++◌, IfOk, OnOk};
ghost use Rattle.cdc_expect.specs.Checked as spec;

use crate::lines::{Kept, push_bad_line, push_entry, push_head, push_kept, push_result};
use cdc_audit::{Mismatch, Refusal};
use cdc_checked_follow::{CheckStop, CheckTurn, CheckedFollower};
use cdc_follow::Taken;
use cdc_output::{push, push_named};
use std::alloc::{AllocError, Global};

/// The JSON line of what came of the line of this number, after which this is kept; no text if there was no line.
pub(crate) fn turn_text(
    alloc: Global,
    number: u64,
    turn: &CheckTurn,
    kept: Kept,
) -> Result<Vec<u8>, AllocError>
    ensures { IfOk result (λ text. text.items ≡ spec.turn_text number turn.now kept) }
{
    let mut text = Vec::new(alloc);
    push_turn(&mut text, number, turn, kept)?;
    Ok(text)
}

/// What is shown of a follower.
pub(crate) fn kept_of(follower: &CheckedFollower) -> Kept
    ensures { result ≡ spec.kept_by follower.now }
{
    Kept {
        applied: follower.applied_count(),
        last: follower.last(),
    }
}

/// Adds the line of what came of the line of this number.
fn push_turn(
    text: &mut Vec<u8>,
    number: u64,
    turn: &CheckTurn,
    kept: Kept,
) -> Result<(), AllocError>
    ensures { OnOk result (text.new.items ≡ text.old.items ++ spec.turn_text number turn.now kept) }
{
    match turn {
        CheckTurn::GoesOn(Taken::Nothing, _) => push_result(text, number, "nothing", kept),
        CheckTurn::GoesOn(Taken::Entry(entry, following), None) => {
            push_entry(text, number, entry, *following, kept)
        }
        CheckTurn::GoesOn(Taken::Entry(..), Some(why)) => push_gap(text, number, *why, kept),
        CheckTurn::Stops(stop) => push_stop(text, *stop, kept),
    }
}

/// Adds the line of why following stopped; none if it stopped at the end.
fn push_stop(text: &mut Vec<u8>, stop: CheckStop, kept: Kept) -> Result<(), AllocError>
    ensures { OnOk result (text.new.items ≡ text.old.items ++ spec.stop_text stop kept) }
{
    match stop {
        CheckStop::AtEnd => Ok(()),
        CheckStop::Gap(line, why) => push_gap(text, line, why, kept),
        CheckStop::BadLine(line, error) => push_bad_line(text, line, error, kept),
    }
}

/// Adds the line of a line whose event is refused, for this reason.
fn push_gap(text: &mut Vec<u8>, number: u64, why: Refusal, kept: Kept) -> Result<(), AllocError>
    ensures { OnOk result (text.new.items ≡ text.old.items ++ spec.gap_text number why kept) }
{
    push_head(text, number, "gap")?;
    push(text, ",\"rule\":\"")?;
    push(text, why.name())?;
    push(text, "\"")?;
    push_refusal(text, why)?;
    push_kept(text, kept)?;
    push(text, "]}\n")?;
    Ok(())
}

/// Adds the members of why an event is refused, besides the rule's name.
fn push_refusal(text: &mut Vec<u8>, why: Refusal) -> Result<(), AllocError>
    ensures { OnOk result (text.new.items ≡ text.old.items ++ spec.refusal_text why) }
{
    match why {
        Refusal::Balance(mismatch) => push_mismatch(text, mismatch),
        Refusal::NotPending(transfer) => push_transfer(text, transfer),
        _ => Ok(()),
    }
}

/// Adds the members of a balance that doesn't follow.
fn push_mismatch(text: &mut Vec<u8>, mismatch: Mismatch) -> Result<(), AllocError>
    ensures { OnOk result (text.new.items ≡ text.old.items ++ spec.mismatch_text mismatch) }
{
    push_named(text, ",\"account\":\"", mismatch.account)?;
    push(text, "\",\"field\":\"")?;
    push(text, mismatch.field.name())?;
    push_named(text, "\",\"shown\":\"", mismatch.shown)?;
    push_named(text, "\",\"before\":\"", mismatch.before)?;
    push_named(text, "\",\"added\":\"", mismatch.added)?;
    push_named(text, "\",\"released\":\"", mismatch.released)?;
    push(text, "\"")?;
    Ok(())
}

/// Adds the member of the pending transfer that isn't open.
fn push_transfer(text: &mut Vec<u8>, transfer: u128) -> Result<(), AllocError>
    ensures { OnOk result (text.new.items
        ≡ text.old.items ++ spec.refusal_text (Refusal.NotPending transfer)) }
{
    push_named(text, ",\"transfer\":\"", transfer)?;
    push(text, "\"")?;
    Ok(())
}
