//! The forms in which `audit` prints what it finds.

ghost use Rattle.std.specs.Prelude.{◌≡◌, ◌++◌, ℕ, Bool, List, Option, IfOk, OnOk};
ghost use Rattle.cdc_audit.specs.declared.streams.AuditStop.{AuditStop as Stops};
ghost use Rattle.cdc_audit_command.specs.Texts.{accepted_line, book_text, duplicates_line, stop_line};
ghost use Rattle.cdc_subscriber.specs.SubscriberState.{SubscriberState};

use cdc_audit::{AuditStop, Refusal, push_refusal};
use cdc_output::{Text, push, push_named};
use cdc_streams::{StreamForm, push_bad_line};
use cdc_subscriber::Subscriber;
use std::alloc::{AllocError, Global};

/// A form in which `audit` prints what it finds.
pub trait AuditForm: StreamForm {
    /// What is printed of a subscriber of the accepted events, with or without its book, of how many duplicates were
    /// skipped, if they are to be, and of why auditing stopped.
    ghost prints_audit: { Bool → Option ℕ → SubscriberState → Stops → List ℕ };

    /// The lines of a subscriber of the accepted events, with its book if `shows` is true, and of why auditing stopped.
    /// `skipped`: how many duplicates were skipped; `None` if they aren't to be.
    fn audit(
        &self,
        alloc: Global,
        shows: bool,
        skipped: Option<u64>,
        subscriber: &Subscriber,
        stop: AuditStop,
    ) -> Result<Vec<u8>, AllocError>
        ensures { IfOk result (λ text. text.items ≡ prints_audit shows skipped subscriber.now stop) };
}

impl AuditForm for Text {
    ghost use Rattle.cdc_audit_command.specs.Texts.{audit_text};

    ghost prints_audit = { audit_text };

    fn audit(
        &self,
        alloc: Global,
        shows: bool,
        skipped: Option<u64>,
        subscriber: &Subscriber,
        stop: AuditStop,
    ) -> Result<Vec<u8>, AllocError> {
        let mut text = Vec::new(alloc);
        push_accepted(&mut text, subscriber)?;
        push_duplicates(&mut text, skipped)?;
        push_book(&mut text, shows, subscriber)?;
        push_stop(&mut text, stop)?;
        Ok(text)
    }
}

/// Adds the line of how many events are accepted.
fn push_accepted(text: &mut Vec<u8>, subscriber: &Subscriber) -> Result<(), AllocError>
    ensures { OnOk result (text.new.items ≡ text.old.items ++ accepted_line subscriber.now) }
{
    push_named(text, "accepted ", subscriber.applied_count())?;
    push_named(text, " last ", subscriber.last())?;
    push(text, "\n")
}

/// Adds the line of how many duplicates were skipped; none if they aren't to be.
fn push_duplicates(text: &mut Vec<u8>, skipped: Option<u64>) -> Result<(), AllocError>
    ensures { OnOk result (text.new.items ≡ text.old.items ++ duplicates_line skipped) }
{
    match skipped {
        None => Ok(()),
        Some(skipped) => {
            push_named(text, "duplicates ", skipped)?;
            push(text, "\n")
        }
    }
}

/// Adds the lines of the subscriber, which has the number 1, if they are asked for.
fn push_book(text: &mut Vec<u8>, shows: bool, subscriber: &Subscriber) -> Result<(), AllocError>
    ensures { OnOk result (text.new.items ≡ text.old.items ++ book_text shows subscriber.now) }
{
    if !shows {
        return Ok(());
    }
    // (a write to a vector fails only if memory runs out)
    subscriber.print(text, 1).or(Err(AllocError))
}

/// Adds the line of why auditing stopped; none if it stopped at the end.
fn push_stop(text: &mut Vec<u8>, stop: AuditStop) -> Result<(), AllocError>
    ensures { OnOk result (text.new.items ≡ text.old.items ++ stop_line stop) }
{
    match stop {
        AuditStop::AtEnd => Ok(()),
        AuditStop::Refused(line, why) => push_refused(text, line, why),
        AuditStop::BadLine(line, error) => push_bad_line(text, line, error),
    }
}

/// Adds the line of an event that is refused, on the line of this number.
fn push_refused(text: &mut Vec<u8>, line: u64, why: Refusal) -> Result<(), AllocError>
    ensures { OnOk result (text.new.items ≡ text.old.items ++ stop_line (Stops.Refused line why)) }
{
    push_named(text, "refused: line ", line)?;
    push(text, ": ")?;
    push_refusal(&why, text)?;
    push(text, "\n")?;
    Ok(())
}
