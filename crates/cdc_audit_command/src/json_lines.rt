//! What `audit` prints as JSON.

ghost use Rattle.std.specs.Prelude.{◌≡◌, ◌++◌, OnOk};
ghost use Rattle.cdc_audit.specs.declared.refusals.Refusal.{Refusal as Refusals};
ghost use Rattle.cdc_audit_command.specs.JsonLines.{
  accepted_value,
  audit_stop_lines,
  duplicates_lines,
  refusal_members,
  refused_value,
  rule_value,
};
ghost use Rattle.cdc_output.specs.Lines.{json_line};
ghost use Rattle.cdc_output.specs.Values.{wide};
ghost use Rattle.serde_json.specs.Data.{member, no_members, string};

use crate::forms::AuditForm;
use crate::refusals::{
    push_amount, push_at_event, push_created, push_end, push_excess, push_expiry, push_field,
    push_mismatch, push_together, push_transfer_time,
};
use cdc_audit::{AuditStop, Refusal};
use cdc_output::Field::{Number, Text, Wide};
use cdc_output::{Json, Lines, Member, push_subscriber};
use cdc_streams::push_bad_line_json;
use cdc_subscriber::Subscriber;
use std::alloc::{AllocError, Global};

impl AuditForm for Json {
    ghost use Rattle.cdc_audit_command.specs.JsonLines.{audit_lines};

    ghost prints_audit = { audit_lines };

    fn audit(
        &self,
        alloc: Global,
        shows: bool,
        skipped: Option<u64>,
        subscriber: &Subscriber,
        stop: AuditStop,
    ) -> Result<Vec<u8>, AllocError> {
        let mut lines = Lines::new(alloc);
        push_accepted(alloc, &mut lines, subscriber)?;
        push_duplicates(alloc, &mut lines, skipped)?;
        if shows {
            push_subscriber(alloc, &mut lines, 1, subscriber)?;
        }
        push_audit_stop(alloc, &mut lines, stop)?;
        Ok(lines.into_text())
    }
}

/// Adds the line of how many events are accepted, which this subscriber applied, and of the last one's timestamp.
fn push_accepted(
    alloc: Global,
    lines: &mut Lines,
    subscriber: &Subscriber,
) -> Result<(), AllocError>
    ensures { OnOk result (lines.new.text.items
        ≡ lines.old.text.items ++ json_line (accepted_value subscriber.now)) }
{
    lines.push(
        alloc,
        "accepted",
        &[
            Member("events", Number(subscriber.applied_count())),
            Member("last", Wide(subscriber.last().into())),
        ],
    )
}

/// Adds the line of how many duplicates were skipped; none if they aren't to be.
fn push_duplicates(alloc: Global, lines: &mut Lines, skipped: Option<u64>) -> Result<(), AllocError>
    ensures { OnOk result (lines.new.text.items ≡ lines.old.text.items ++ duplicates_lines skipped) }
{
    match skipped {
        None => Ok(()),
        Some(skipped) => lines.push(alloc, "duplicates", &[Member("events", Number(skipped))]),
    }
}

/// Adds the line of why auditing stopped; none at the end.
fn push_audit_stop(alloc: Global, lines: &mut Lines, stop: AuditStop) -> Result<(), AllocError>
    ensures { OnOk result (lines.new.text.items
        ≡ lines.old.text.items ++ audit_stop_lines stop) }
{
    match stop {
        AuditStop::AtEnd => Ok(()),
        AuditStop::Refused(line, why) => push_refused(alloc, lines, line, why),
        AuditStop::BadLine(line, error) => push_bad_line_json(alloc, lines, line, error),
    }
}

/// Adds the line of an event that is refused, on the line of this number.
fn push_refused(alloc: Global, lines: &mut Lines, line: u64, why: Refusal) -> Result<(), AllocError>
    ensures { OnOk result (lines.new.text.items
        ≡ lines.old.text.items ++ json_line (refused_value line why)) }
{
    let rule = why.name();
    match why {
        Refusal::AfterEnd(timestamp)
        | Refusal::TooHigh(timestamp)
        | Refusal::LongChain(timestamp)
        | Refusal::NoNext(timestamp) => {
            push_number(alloc, lines, line, rule, "timestamp", timestamp.into())
        }
        Refusal::NotLater(timestamp, last) | Refusal::BrokenChain(timestamp, last) => {
            push_timestamps(alloc, lines, line, rule, timestamp, last)
        }
        Refusal::OneAccount(account) => push_number(alloc, lines, line, rule, "account", account),
        Refusal::TransferShape(transfer, why) => {
            push_named(
                alloc,
                lines,
                line,
                rule,
                "transfer",
                transfer,
                "result",
                why.name(),
            )
        }
        Refusal::OtherTimestamp(transfer, shown, timestamp) => {
            push_transfer_time(alloc, lines, line, rule, transfer, shown, timestamp)
        }
        Refusal::AccountShape(account, why) => {
            push_named(
                alloc,
                lines,
                line,
                rule,
                "account",
                account,
                "result",
                why.name(),
            )
        }
        Refusal::AccountField(mismatch) => push_field(alloc, lines, line, rule, mismatch),
        Refusal::CreatedLater(account, created, timestamp) => {
            push_created(alloc, lines, line, rule, account, created, timestamp)
        }
        Refusal::CreatedAtEvent(account, created)
        | Refusal::NextIsEvent(account, created)
        | Refusal::LongAccountChain(account, created) => {
            push_at_event(alloc, lines, line, rule, account, created)
        }
        Refusal::CreatedTogether(account, created, other) => {
            push_together(alloc, lines, line, rule, account, created, other)
        }
        Refusal::KnownId(transfer)
        | Refusal::NotPending(transfer)
        | Refusal::Settled(transfer)
        | Refusal::OtherKind(transfer)
        | Refusal::OtherFields(transfer)
        | Refusal::NoTimeout(transfer) => {
            push_number(alloc, lines, line, rule, "transfer", transfer)
        }
        Refusal::Amount(amount, transfer, held) => {
            push_amount(alloc, lines, line, rule, amount, transfer, held)
        }
        Refusal::TooSoon(transfer, timestamp, end) | Refusal::TooLate(transfer, timestamp, end) => {
            push_end(alloc, lines, line, rule, transfer, timestamp, end)
        }
        Refusal::ExpiresLate(transfer, other) | Refusal::ExpiresApart(transfer, other) => {
            push_expiry(alloc, lines, line, rule, transfer, other)
        }
        Refusal::TooLarge(account, side) => {
            push_named(
                alloc,
                lines,
                line,
                rule,
                "account",
                account,
                "side",
                side.name(),
            )
        }
        Refusal::Limit(excess) => push_excess(alloc, lines, line, rule, excess),
        Refusal::Balance(mismatch) => push_mismatch(alloc, lines, line, rule, mismatch),
    }
}

/// Adds the line of an event that is refused by this rule, with one number of this name.
fn push_number<'a>(
    alloc: Global,
    lines: &mut Lines,
    line: u64,
    rule: &'a str,
    name: &'a str,
    number: u128,
) -> Result<(), AllocError>
    ensures { OnOk result (lines.new.text.items ≡ lines.old.text.items
        ++ json_line (rule_value line rule.now (member name.now (wide number) no_members))) }
{
    lines.push(
        alloc,
        "refusal",
        &[
            Member("line", Number(line)),
            Member("rule", Text(rule)),
            Member(name, Wide(number)),
        ],
    )
}

/// Adds the line of an event that is refused by this rule, with its timestamp and that of the event before it.
fn push_timestamps(
    alloc: Global,
    lines: &mut Lines,
    line: u64,
    rule: &str,
    timestamp: u64,
    last: u64,
) -> Result<(), AllocError>
    ensures { OnOk result (lines.new.text.items ≡ lines.old.text.items
        ++ json_line (rule_value line rule.now (refusal_members (Refusals.NotLater timestamp last)))) }
{
    lines.push(
        alloc,
        "refusal",
        &[
            Member("line", Number(line)),
            Member("rule", Text(rule)),
            Member("timestamp", Wide(timestamp.into())),
            Member("last", Wide(last.into())),
        ],
    )
}

/// Adds the line of an event that is refused by this rule, with an id and a name.
fn push_named<'a>(
    alloc: Global,
    lines: &mut Lines,
    line: u64,
    rule: &'a str,
    name: &'a str,
    id: u128,
    other: &'a str,
    text: &'a str,
) -> Result<(), AllocError>
    ensures { OnOk result (lines.new.text.items ≡ lines.old.text.items
        ++ json_line (rule_value line rule.now
        (member name.now (wide id) (member other.now (string text.now) no_members)))) }
{
    lines.push(
        alloc,
        "refusal",
        &[
            Member("line", Number(line)),
            Member("rule", Text(rule)),
            Member(name, Wide(id)),
            Member(other, Text(text)),
        ],
    )
}
