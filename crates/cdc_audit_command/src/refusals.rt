//! The lines of events that are refused, with the numbers of the rule that they break.

ghost use Rattle.std.specs.Prelude.{◌≡◌, ◌++◌, OnOk};
ghost use Rattle.cdc_audit.specs.declared.refusals.Refusal.{Refusal as Refusals};
ghost use Rattle.cdc_audit_command.specs.JsonLines.{refusal_members, rule_value};
ghost use Rattle.cdc_output.specs.Lines.{json_line};

use cdc_audit::{Excess, FieldMismatch, Mismatch};
use cdc_output::Field::{Number, Text, Wide};
use cdc_output::{Lines, Member};
use std::alloc::{AllocError, Global};

/// Adds the line of an event that is refused by this rule, with the balance that doesn't follow.
pub(crate) fn push_mismatch(
    alloc: Global,
    lines: &mut Lines,
    line: u64,
    rule: &str,
    mismatch: Mismatch,
) -> Result<(), AllocError>
    ensures { OnOk result (lines.new.text.items ≡ lines.old.text.items
        ++ json_line (rule_value line rule.now (refusal_members (Refusals.Balance mismatch)))) }
{
    lines.push(
        alloc,
        "refusal",
        &[
            Member("line", Number(line)),
            Member("rule", Text(rule)),
            Member("account", Wide(mismatch.account)),
            Member("field", Text(mismatch.field.name())),
            Member("shown", Wide(mismatch.shown)),
            Member("before", Wide(mismatch.before)),
            Member("added", Wide(mismatch.added)),
            Member("released", Wide(mismatch.released)),
        ],
    )
}

/// Adds the line of an event that is refused by this rule, with a transfer's timestamp that isn't the event's.
pub(crate) fn push_transfer_time(
    alloc: Global,
    lines: &mut Lines,
    line: u64,
    rule: &str,
    transfer: u128,
    shown: u64,
    timestamp: u64,
) -> Result<(), AllocError>
    ensures { OnOk result (lines.new.text.items ≡ lines.old.text.items
        ++ json_line (rule_value line rule.now (refusal_members (Refusals.OtherTimestamp transfer shown timestamp)))) }
{
    lines.push(
        alloc,
        "refusal",
        &[
            Member("line", Number(line)),
            Member("rule", Text(rule)),
            Member("transfer", Wide(transfer)),
            Member("shown", Wide(shown.into())),
            Member("timestamp", Wide(timestamp.into())),
        ],
    )
}

/// Adds the line of an event that is refused by this rule, with a field of an account that changed.
pub(crate) fn push_field(
    alloc: Global,
    lines: &mut Lines,
    line: u64,
    rule: &str,
    mismatch: FieldMismatch,
) -> Result<(), AllocError>
    ensures { OnOk result (lines.new.text.items ≡ lines.old.text.items
        ++ json_line (rule_value line rule.now (refusal_members (Refusals.AccountField mismatch)))) }
{
    lines.push(
        alloc,
        "refusal",
        &[
            Member("line", Number(line)),
            Member("rule", Text(rule)),
            Member("account", Wide(mismatch.account)),
            Member("field", Text(mismatch.field.name())),
            Member("shown", Wide(mismatch.shown)),
            Member("before", Wide(mismatch.before)),
        ],
    )
}

/// Adds the line of an event that is refused by this rule, with an account that was created later.
pub(crate) fn push_created(
    alloc: Global,
    lines: &mut Lines,
    line: u64,
    rule: &str,
    account: u128,
    created: u64,
    timestamp: u64,
) -> Result<(), AllocError>
    ensures { OnOk result (lines.new.text.items ≡ lines.old.text.items
        ++ json_line (rule_value line rule.now (refusal_members (Refusals.CreatedLater account created timestamp)))) }
{
    lines.push(
        alloc,
        "refusal",
        &[
            Member("line", Number(line)),
            Member("rule", Text(rule)),
            Member("account", Wide(account)),
            Member("created", Wide(created.into())),
            Member("timestamp", Wide(timestamp.into())),
        ],
    )
}

/// Adds the line of an event that is refused by this rule, with an account and when it was created: at an event's
/// timestamp, or as a linked one.
pub(crate) fn push_at_event(
    alloc: Global,
    lines: &mut Lines,
    line: u64,
    rule: &str,
    account: u128,
    created: u64,
) -> Result<(), AllocError>
    ensures { OnOk result (lines.new.text.items ≡ lines.old.text.items
        ++ json_line (rule_value line rule.now (refusal_members (Refusals.CreatedAtEvent account created)))) }
{
    lines.push(
        alloc,
        "refusal",
        &[
            Member("line", Number(line)),
            Member("rule", Text(rule)),
            Member("account", Wide(account)),
            Member("created", Wide(created.into())),
        ],
    )
}

/// Adds the line of an event that is refused by this rule, with an account that was created at the timestamp of
/// another one.
pub(crate) fn push_together(
    alloc: Global,
    lines: &mut Lines,
    line: u64,
    rule: &str,
    account: u128,
    created: u64,
    second: u128,
) -> Result<(), AllocError>
    ensures { OnOk result (lines.new.text.items ≡ lines.old.text.items
        ++ json_line (rule_value line rule.now (refusal_members (Refusals.CreatedTogether account created second)))) }
{
    lines.push(
        alloc,
        "refusal",
        &[
            Member("line", Number(line)),
            Member("rule", Text(rule)),
            Member("account", Wide(account)),
            Member("created", Wide(created.into())),
            Member("other", Wide(second)),
        ],
    )
}

/// Adds the line of an event that is refused by this rule, with an amount that isn't that of the pending transfer.
pub(crate) fn push_amount(
    alloc: Global,
    lines: &mut Lines,
    line: u64,
    rule: &str,
    amount: u128,
    transfer: u128,
    held: u128,
) -> Result<(), AllocError>
    ensures { OnOk result (lines.new.text.items ≡ lines.old.text.items
        ++ json_line (rule_value line rule.now (refusal_members (Refusals.Amount amount transfer held)))) }
{
    lines.push(
        alloc,
        "refusal",
        &[
            Member("line", Number(line)),
            Member("rule", Text(rule)),
            Member("transfer", Wide(transfer)),
            Member("amount", Wide(amount)),
            Member("held", Wide(held)),
        ],
    )
}

/// Adds the line of an event that is refused by this rule, with a sum that exceeds its limit.
pub(crate) fn push_excess(
    alloc: Global,
    lines: &mut Lines,
    line: u64,
    rule: &str,
    excess: Excess,
) -> Result<(), AllocError>
    ensures { OnOk result (lines.new.text.items ≡ lines.old.text.items
        ++ json_line (rule_value line rule.now (refusal_members (Refusals.Limit excess)))) }
{
    lines.push(
        alloc,
        "refusal",
        &[
            Member("line", Number(line)),
            Member("rule", Text(rule)),
            Member("account", Wide(excess.account)),
            Member("side", Text(excess.side.name())),
            Member("sum", Wide(excess.sum)),
            Member("limit", Wide(excess.limit)),
        ],
    )
}

/// Adds the line of an event that is refused by this rule, with when it settles a pending transfer, and when that one's
/// time is up.
pub(crate) fn push_end(
    alloc: Global,
    lines: &mut Lines,
    line: u64,
    rule: &str,
    transfer: u128,
    timestamp: u64,
    end: u128,
) -> Result<(), AllocError>
    ensures { OnOk result (lines.new.text.items ≡ lines.old.text.items
        ++ json_line (rule_value line rule.now (refusal_members (Refusals.TooSoon transfer timestamp end)))) }
{
    lines.push(
        alloc,
        "refusal",
        &[
            Member("line", Number(line)),
            Member("rule", Text(rule)),
            Member("transfer", Wide(transfer)),
            Member("timestamp", Wide(timestamp.into())),
            Member("end", Wide(end)),
        ],
    )
}

/// Adds the line of an expiry that is refused by this rule, of a pending transfer after that of another one.
pub(crate) fn push_expiry(
    alloc: Global,
    lines: &mut Lines,
    line: u64,
    rule: &str,
    transfer: u128,
    other: u128,
) -> Result<(), AllocError>
    ensures { OnOk result (lines.new.text.items ≡ lines.old.text.items
        ++ json_line (rule_value line rule.now (refusal_members (Refusals.ExpiresLate transfer other)))) }
{
    lines.push(
        alloc,
        "refusal",
        &[
            Member("line", Number(line)),
            Member("rule", Text(rule)),
            Member("transfer", Wide(transfer)),
            Member("after", Wide(other)),
        ],
    )
}
