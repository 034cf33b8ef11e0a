//! What stands in a member of a body, and what may stand there.

use cdc_message::{Field, FieldName, Part};
use serde_json::Value;
use std::alloc::{AllocError, Global};
use std::fmt::Write;

/// The values of the member `type`.
const KINDS: [&str; 5] = [
    "single_phase",
    "two_phase_pending",
    "two_phase_posted",
    "two_phase_voided",
    "two_phase_expired",
];

/// How many bytes of a value are shown, at most.
const MOST_SHOWN: usize = 60;

/// Adds what stands in a member of a body or of an envelope's, and what may stand there.
pub(crate) fn push_member(
    alloc: Global,
    text: &mut String,
    line: &Value,
    field: Field,
) -> Result<(), AllocError> {
    if is_payload_text(line) {
        return text.push_str(
            "payload is a text, and an event is expected: `jq -c '.payload | fromjson' FILE` prints the events",
        );
    }
    let key = field.name.key();
    text.push_str(part_of(field.part))?;
    text.push_str(key)?;
    let object = line.get("body").unwrap_or(line);
    let part = match member_of(field.part) {
        Some(name) => object.get(name),
        None => Some(object),
    };
    let found = part.and_then(|part| part.get(key));
    match found {
        Some(value) => push_value(alloc, text, value)?,
        None => text.push_str(" is missing")?,
    }
    text.push_str(": ")?;
    text.push_str(expected_of(field.name))?;
    if found.is_some_and(|value| value.is_f64()) {
        return text.push_str(", and one above 2^64-1 stands in quotes");
    }
    Ok(())
}

/// Whether a line has no event of its own, and its member `payload` is a text.
fn is_payload_text(line: &Value) -> bool {
    line.get("type").is_none()
        && line
            .get("payload")
            .is_some_and(|payload| payload.is_string())
}

/// Adds what stands in a member that has a timestamp, and that it is a number up to `most`.
pub(crate) fn push_timestamp(
    alloc: Global,
    text: &mut String,
    object: &Value,
    key: &str,
    most: &str,
) -> Result<(), AllocError> {
    text.push_str(key)?;
    match object.get(key) {
        Some(value) => push_value(alloc, text, value)?,
        None => text.push_str(" is missing")?,
    }
    text.push_str(": a whole number from 0 to ")?;
    text.push_str(most)
}

/// Adds which kind of event is unknown, and the five kinds.
pub(crate) fn push_unknown_kind(
    alloc: Global,
    text: &mut String,
    line: &Value,
) -> Result<(), AllocError> {
    let object = line.get("body").unwrap_or(line);
    let Some(value) = object.get("type") else {
        return text.push_str("type is missing");
    };
    text.push_str("type")?;
    push_value(alloc, text, value)?;
    text.push_str(": one of ")?;
    for (place, kind) in KINDS.iter().enumerate() {
        text.push_str(separator(place, KINDS.len()))?;
        text.push_str(kind)?;
    }
    Ok(())
}

/// What stands before the item at this place of so many.
fn separator(place: usize, count: usize) -> &'static str {
    if place == 0 {
        ""
    } else if place.saturating_add(1) == count {
        " and "
    } else {
        ", "
    }
}

/// Adds a value as JSON, which is cut if it is long.
fn push_value(alloc: Global, text: &mut String, value: &Value) -> Result<(), AllocError> {
    let shown = value.to_string(alloc)?;
    text.push_str(" is ")?;
    let mut count: usize = 0;
    for letter in shown.chars() {
        if count >= MOST_SHOWN {
            return text.push_str("..");
        }
        text.push(letter)?;
        count = count.saturating_add(1);
    }
    Ok(())
}

/// The member that a part is in, with a dot; nothing for the event itself.
fn part_of(part: Part) -> &'static str {
    match part {
        Part::Top => "",
        Part::Transfer => "transfer.",
        Part::Debit => "debit_account.",
        Part::Credit => "credit_account.",
    }
}

/// The member that a part is in. None for the event itself.
fn member_of(part: Part) -> Option<&'static str> {
    match part {
        Part::Top => None,
        Part::Transfer => Some("transfer"),
        Part::Debit => Some("debit_account"),
        Part::Credit => Some("credit_account"),
    }
}

/// What may stand in a field of this name.
fn expected_of(name: FieldName) -> &'static str {
    match name {
        FieldName::Kind => "the name of a kind of event, such as \"single_phase\"",
        FieldName::TransferPart | FieldName::DebitAccount | FieldName::CreditAccount => {
            "a JSON object"
        }
        FieldName::Timestamp | FieldName::UserData64 => "a whole number from 0 to 2^64-1",
        FieldName::Ledger | FieldName::UserData32 | FieldName::Timeout => {
            "a whole number from 0 to 2^32-1"
        }
        FieldName::Code | FieldName::Flags => "a whole number from 0 to 65535",
        FieldName::Id
        | FieldName::Amount
        | FieldName::PendingId
        | FieldName::UserData128
        | FieldName::DebitsPending
        | FieldName::DebitsPosted
        | FieldName::CreditsPending
        | FieldName::CreditsPosted => { "a whole number from 0 to 2^128-1" }
    }
}
