//! The parts of the JSON lines, and the lines that both ways of following print.

ghost use Rattle.std.specs.Prelude.{◌≡◌, ◌++◌, OnOk};
ghost use Rattle.cdc_expect.specs.Lines as spec;

use cdc_follow::{Content, Entry, Following, LineError};
use cdc_output::{push, push_named};
use cdc_types::{Event, EventAccount};
use std::alloc::AllocError;

/// What each line shows of a follower.
#[derive(Clone, Copy)]
pub(crate) struct Kept {
    /// How many events its book has. The count saturates at 2^64-1.
    pub applied: u64,
    /// The timestamp of the last event that was applied, in nanoseconds; 0 before the first.
    pub last: u64,
}

/// Adds the line of a line with this entry, of which this became.
pub(crate) fn push_entry(
    text: &mut Vec<u8>,
    number: u64,
    entry: &Entry,
    following: Following,
    kept: Kept,
) -> Result<(), AllocError>
    ensures { OnOk result (text.new.items
        ≡ text.old.items ++ spec.entry_text number entry.now.content following kept) }
{
    match following {
        Following::Applied => push_applied(text, number, &entry.content, kept),
        Following::PassedBy => push_result(text, number, "passed", kept),
        Following::Duplicate => push_result(text, number, "duplicate", kept),
        Following::Gap => push_result(text, number, "gap", kept),
        Following::Ended => push_result(text, number, "end", kept),
        Following::AfterEnd => push_result(text, number, "after_end", kept),
        Following::OutOfRange => push_result(text, number, "out_of_range", kept),
    }
}

/// Adds the line of a line whose entry has this content and is applied.
fn push_applied(
    text: &mut Vec<u8>,
    number: u64,
    content: &Content,
    kept: Kept,
) -> Result<(), AllocError>
    ensures { OnOk result (text.new.items
        ≡ text.old.items ++ spec.applied_text number content.now kept) }
{
    match content {
        Content::Event(event) => push_event(text, number, event, kept),
        Content::End => push_result(text, number, "applied", kept),
    }
}

/// Adds the line of a line with this result, which changes no account.
pub(crate) fn push_result(
    text: &mut Vec<u8>,
    number: u64,
    name: &str,
    kept: Kept,
) -> Result<(), AllocError>
    ensures { OnOk result (text.new.items
        ≡ text.old.items ++ spec.result_text number name.now kept) }
{
    push_head(text, number, name)?;
    push_kept(text, kept)?;
    push(text, "]}\n")?;
    Ok(())
}

/// Adds the line of a line whose event is applied.
fn push_event(text: &mut Vec<u8>, number: u64, event: &Event, kept: Kept) -> Result<(), AllocError>
    ensures { OnOk result (text.new.items ≡ text.old.items ++ spec.event_text number event.now kept) }
{
    push_head(text, number, "applied")?;
    push_kept(text, kept)?;
    push_account(text, &event.debit_account)?;
    push(text, ",")?;
    push_account(text, &event.credit_account)?;
    push(text, "]}\n")?;
    Ok(())
}

/// Adds the line of a line that is no entry, for this reason.
pub(crate) fn push_bad_line(
    text: &mut Vec<u8>,
    number: u64,
    error: LineError,
    kept: Kept,
) -> Result<(), AllocError>
    ensures { OnOk result (text.new.items
        ≡ text.old.items ++ spec.bad_line_text number error kept) }
{
    push_head(text, number, "bad_line")?;
    push(text, ",\"name\":\"")?;
    push(text, error.name())?;
    push(text, "\"")?;
    push_kept(text, kept)?;
    push(text, "]}\n")?;
    Ok(())
}

/// Adds the first members: those of the line of this number, which has this result.
pub(crate) fn push_head(text: &mut Vec<u8>, number: u64, name: &str) -> Result<(), AllocError>
    ensures { OnOk result (text.new.items ≡ text.old.items ++ spec.head_text number name.now) }
{
    push_named(text, "{\"kind\":\"expect\",\"line\":", number)?;
    push(text, ",\"result\":\"")?;
    push(text, name)?;
    push(text, "\"")?;
    Ok(())
}

/// Adds the members of what a follower keeps, and begins that of the accounts.
pub(crate) fn push_kept(text: &mut Vec<u8>, kept: Kept) -> Result<(), AllocError>
    ensures { OnOk result (text.new.items ≡ text.old.items ++ spec.kept_text kept) }
{
    push_named(text, ",\"applied\":", kept.applied)?;
    push_named(text, ",\"last\":\"", kept.last)?;
    push(text, "\",\"accounts\":[")?;
    Ok(())
}

/// Adds the object of an account of an event, with its balances.
fn push_account(text: &mut Vec<u8>, account: &EventAccount) -> Result<(), AllocError>
    ensures { OnOk result (text.new.items ≡ text.old.items ++ spec.account_text account.now) }
{
    push_named(text, "{\"id\":\"", account.id)?;
    push_named(text, "\",\"debits_pending\":\"", account.debits_pending)?;
    push_named(text, "\",\"debits_posted\":\"", account.debits_posted)?;
    push_named(text, "\",\"credits_pending\":\"", account.credits_pending)?;
    push_named(text, "\",\"credits_posted\":\"", account.credits_posted)?;
    push(text, "\"}")?;
    Ok(())
}
