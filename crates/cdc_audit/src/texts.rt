//! The text of a refusal.

ghost use Rattle.std.specs.Prelude.{◌≡◌, ◌++◌, OnOk, codes};
ghost use Rattle.cdc_audit.specs.Texts as spec;
ghost use Rattle.cdc_audit.specs.Texts.{refusal_text};

use crate::refusals::{Excess, FieldMismatch, Mismatch, Refusal, Side};
use itoa::{Buffer, Integer};
use std::alloc::AllocError;

/// Adds the text of a refusal: the name of the rule that the event breaks, a colon, and the reason with its numbers.
/// If memory runs out, a part of it may have been added.
pub fn push_refusal(why: &Refusal, text: &mut Vec<u8>) -> Result<(), AllocError>
    ensures { OnOk result (text.new.items ≡ text.old.items ++ refusal_text why.now) }
{
    push(text, why.name())?;
    push(text, ": ")?;
    push_reason(*why, text)
}

/// Adds the reason, with its numbers.
fn push_reason(why: Refusal, text: &mut Vec<u8>) -> Result<(), AllocError>
    ensures { OnOk result (text.new.items ≡ text.old.items ++ spec.reason_text why) }
{
    match why {
        Refusal::AfterEnd(timestamp) => push_around(
            text,
            "event ",
            timestamp,
            " came after the end",
        ),
        Refusal::NotLater(timestamp, last) => push_order(text, timestamp, last),
        Refusal::TooHigh(timestamp) => {
            push_around(text, "", timestamp, " is above the greatest timestamp")
        }
        Refusal::OneAccount(id) => push_around(text, "account ", id, " is debited and credited"),
        Refusal::TransferShape(id, why) => push_invalid(text, "transfer ", id, why.name()),
        Refusal::OtherKind(id) => {
            push_around(text, "transfer ", id, " has the flags of another kind")
        }
        Refusal::OtherTimestamp(id, shown, timestamp) => {
            push_times(text, "transfer ", id, " has timestamp ", shown, timestamp)
        }
        Refusal::AccountShape(id, why) => push_invalid(text, "account ", id, why.name()),
        Refusal::AccountField(mismatch) => push_field(&mismatch, text),
        Refusal::CreatedLater(id, created, timestamp) => {
            push_times(text, "account ", id, " at ", created, timestamp)
        }
        Refusal::CreatedAtEvent(id, timestamp) => {
            push_shared(text, id, timestamp)?;
            push(text, ", as an event")
        }
        Refusal::CreatedTogether(id, timestamp, other) => {
            push_shared(text, id, timestamp)?;
            push(text, ", as account ")?;
            push_number(text, other)
        }
        Refusal::KnownId(id) => push_around(text, "transfer ", id, " came before"),
        Refusal::NotPending(id) => push_around(text, "no pending transfer ", id, " came before"),
        Refusal::Settled(id) => push_around(text, "pending transfer ", id, " ended before"),
        Refusal::OtherFields(id) => push_around(
            text,
            "pending transfer ",
            id,
            " has other accounts, another ledger, code or user data",
        ),
        Refusal::Amount(amount, id, held) => push_amount(text, amount, id, held),
        Refusal::NoTimeout(id) => push_around(text, "pending transfer ", id, " has no timeout"),
        Refusal::TooSoon(id, timestamp, end) => push_end(text, id, " expires at ", timestamp, end),
        Refusal::TooLate(id, timestamp, end) => {
            push_end(text, id, " is settled at ", timestamp, end)
        }
        Refusal::ExpiresLate(id, other) => push_expiry(
            text,
            id,
            " expires before pending transfer ",
            other,
            ", which is first to expire",
        ),
        Refusal::ExpiresApart(id, other) => push_expiry(
            text,
            id,
            " expires with pending transfer ",
            other,
            ", and not right after it",
        ),
        Refusal::BrokenChain(timestamp, last) => push_chain(text, timestamp, last),
        Refusal::TooLarge(id, side) => push_side(text, id, side),
        Refusal::Limit(excess) => push_excess(&excess, text),
        Refusal::Balance(mismatch) => push_mismatch(&mismatch, text),
        Refusal::NextIsEvent(id, created) => {
            push_shared(text, id, created)?;
            push(text, ", linked, right before an event")
        }
        Refusal::LongAccountChain(id, created) => {
            push_shared(text, id, created)?;
            push(text, ", in a chain longer than a batch")
        }
        Refusal::LongChain(timestamp) => push_around(
            text,
            "event ",
            timestamp,
            " is in a chain longer than a batch",
        ),
        Refusal::NoNext(timestamp) => push_around(
            text,
            "event ",
            timestamp,
            " is linked, at the greatest timestamp",
        ),
    }
}

/// Adds two timestamps of which the first isn't later.
fn push_order(text: &mut Vec<u8>, timestamp: u64, last: u64) -> Result<(), AllocError>
    ensures { OnOk result (text.new.items
        ≡ text.old.items ++ spec.reason_text (Refusal.NotLater timestamp last)) }
{
    push_around(text, "", timestamp, ", after ")?;
    push_number(text, last)
}

/// Adds an id, and the name of the result with which a ledger refuses a request for it.
fn push_invalid(text: &mut Vec<u8>, before: &str, id: u128, name: &str) -> Result<(), AllocError>
    ensures { OnOk result (text.new.items ≡ text.old.items
        ++ (spec.around before.now id (codes " is invalid: ") ++ name.now)) }
{
    push_around(text, before, id, " is invalid: ")?;
    push(text, name)
}

/// Adds an id with a timestamp, in an event with another one.
fn push_times(
    text: &mut Vec<u8>,
    before: &str,
    id: u128,
    between: &str,
    one: u64,
    other: u64,
) -> Result<(), AllocError>
    ensures { OnOk result (text.new.items
        ≡ text.old.items ++ spec.at_times before.now id between.now one other) }
{
    push_around(text, before, id, between)?;
    push_number(text, one)?;
    push(text, ", in an event at ")?;
    push_number(text, other)
}

/// Adds an account's timestamp, which another thing has.
fn push_shared(text: &mut Vec<u8>, id: u128, timestamp: u64) -> Result<(), AllocError>
    ensures { OnOk result (text.new.items ≡ text.old.items ++ spec.shared_text id timestamp) }
{
    push_around(text, "account ", id, " at ")?;
    push_number(text, timestamp)
}

/// Adds when a pending transfer is settled, and when it expires.
fn push_end(
    text: &mut Vec<u8>,
    id: u128,
    between: &str,
    timestamp: u64,
    end: u128,
) -> Result<(), AllocError>
    ensures { OnOk result (text.new.items
        ≡ text.old.items ++ spec.time_text id between.now timestamp end) }
{
    push_around(text, "pending transfer ", id, between)?;
    push_number(text, timestamp)?;
    push(text, ", and its time is up at ")?;
    push_number(text, end)
}

/// Adds a pending transfer that expires after another one.
fn push_expiry(
    text: &mut Vec<u8>,
    id: u128,
    between: &str,
    other: u128,
    after: &str,
) -> Result<(), AllocError>
    ensures { OnOk result (text.new.items
        ≡ text.old.items ++ spec.expiry_text id between.now other after.now) }
{
    push_around(text, "pending transfer ", id, between)?;
    push_number(text, other)?;
    push(text, after)
}

/// Adds a field of an account that isn't as its first event showed it.
fn push_field(mismatch: &FieldMismatch, text: &mut Vec<u8>) -> Result<(), AllocError>
    ensures { OnOk result (text.new.items ≡ text.old.items ++ spec.field_text mismatch.now) }
{
    push_around(text, "account ", mismatch.account, " has ")?;
    push(text, mismatch.field.name())?;
    push_around(text, " ", mismatch.shown, ", after ")?;
    push_number(text, mismatch.before)
}

/// Adds a side of an account that is too large.
fn push_side(text: &mut Vec<u8>, id: u128, side: Side) -> Result<(), AllocError>
    ensures { OnOk result (text.new.items
        ≡ text.old.items ++ spec.reason_text (Refusal.TooLarge id side)) }
{
    push_around(text, "account ", id, " has ")?;
    push(text, side.name())?;
    push(text, " above 128 bits")
}

/// Adds a sum that exceeds its limit.
fn push_excess(excess: &Excess, text: &mut Vec<u8>) -> Result<(), AllocError>
    ensures { OnOk result (text.new.items ≡ text.old.items ++ spec.excess_text excess.now) }
{
    push_around(text, "account ", excess.account, " has ")?;
    push(text, excess.side.name())?;
    push_around(text, " of ", excess.sum, ", above its ")?;
    push(text, excess.side.other_name())?;
    push(text, " of ")?;
    push_number(text, excess.limit)
}

/// Adds an amount of a pending transfer that holds another one.
fn push_amount(text: &mut Vec<u8>, amount: u128, id: u128, held: u128) -> Result<(), AllocError>
    ensures { OnOk result (text.new.items
        ≡ text.old.items ++ spec.reason_text (Refusal.Amount amount id held)) }
{
    push_around(text, "", amount, " of pending transfer ")?;
    push_number(text, id)?;
    push(text, ", which holds ")?;
    push_number(text, held)
}

/// Adds the timestamp of an event that isn't the next one of a chain, and that of the event before it.
fn push_chain(text: &mut Vec<u8>, timestamp: u64, last: u64) -> Result<(), AllocError>
    ensures { OnOk result (text.new.items
        ≡ text.old.items ++ spec.reason_text (Refusal.BrokenChain timestamp last)) }
{
    push_around(
        text,
        "event ",
        timestamp,
        " isn't the next of the chain at ",
    )?;
    push_number(text, last)
}

/// Adds a balance that doesn't follow, and what it would follow from.
fn push_mismatch(mismatch: &Mismatch, text: &mut Vec<u8>) -> Result<(), AllocError>
    ensures { OnOk result (text.new.items ≡ text.old.items ++ spec.mismatch_text mismatch.now) }
{
    push_around(text, "account ", mismatch.account, " has ")?;
    push(text, mismatch.field.name())?;
    push_around(text, " ", mismatch.shown, ", after ")?;
    push_number(text, mismatch.before)?;
    push_unless_zero(text, " and this transfer's ", mismatch.added)?;
    push_unless_zero(text, " less the pending transfer's ", mismatch.released)
}

/// Adds a part of a text.
fn push(text: &mut Vec<u8>, part: &str) -> Result<(), AllocError>
    ensures { OnOk result (text.new.items ≡ text.old.items ++ part.now) }
{
    text.extend_from_slice(part.as_bytes())
}

/// Adds a number.
fn push_number<I: Integer>(text: &mut Vec<u8>, number: I) -> Result<(), AllocError>
    ensures { OnOk result (text.new.items ≡ text.old.items ++ I.text number) }
{
    push(text, Buffer::new().format(number))
}

/// Adds a number between two texts.
fn push_around<I: Integer>(
    text: &mut Vec<u8>,
    before: &str,
    number: I,
    after: &str,
) -> Result<(), AllocError>
    ensures { OnOk result (text.new.items
        ≡ text.old.items ++ (before.now ++ (I.text number ++ after.now))) }
{
    push(text, before)?;
    push_number(text, number)?;
    push(text, after)
}

/// Adds a text and a number; nothing if the number is 0.
fn push_unless_zero(text: &mut Vec<u8>, before: &str, number: u128) -> Result<(), AllocError>
    ensures { OnOk result (text.new.items ≡ text.old.items ++ spec.unless_zero before.now number) }
{
    if number == 0 {
        Ok(())
    } else {
        push(text, before)?;
        push_number(text, number)
    }
}
