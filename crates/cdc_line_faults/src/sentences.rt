//! A sentence on a line that is no entry.

ghost use Rattle.std.specs.Prelude.{◌≡◌, ◌≤◌, ◌+◌, IfOk, length};

use crate::members::{push_member, push_timestamp, push_unknown_kind};
use crate::shapes::{Shape, push_shape, shape_of};
use cdc_follow::LineError;
use cdc_message::DecodeError;
use serde_json::Value;
use std::alloc::{AllocError, Global};

/// Why `previous` is expected.
const PREVIOUS_IS_MISSING: &str =
    "previous is missing: with --chained each line names the timestamp of the message before it in its queue, or \"0\"; `relayplum chain` adds it";

/// A sentence on a line.
#[derive(Drop)]
pub struct LineSentence {
    /// The byte that it is about, from 1; the one after the last is the line's end. 0 if it is about the whole line.
    pub column: usize,
    pub text: String,
}

/// What is wrong with a line of these bytes, without its line feed, that is no entry for this reason: what stands there
/// and what is expected. `number`: the line's, from 1. Fails if it is out of memory.
pub fn line_sentence(
    alloc: Global,
    line: &[u8],
    number: u64,
    error: LineError,
) -> Result<LineSentence, AllocError>
    ensures { IfOk result (λ sentence. sentence.column ≤ length line.now + 1) }
{
    let mut text = String::new(alloc);
    let column = push_sentence(alloc, &mut text, line, number, error)?;
    Ok(LineSentence {
        column: column.min(line.len().saturating_add(1)),
        text,
    })
}

/// Adds the sentence. Returns the byte that it is about, or 0.
fn push_sentence(
    alloc: Global,
    text: &mut String,
    line: &[u8],
    number: u64,
    error: LineError,
) -> Result<usize, AllocError> {
    if let Some(shape) = shape_of(line, number, error) {
        return push_shape(text, line, shape);
    }
    match Value::from_slice(alloc, line) {
        Ok(value) => {
            push_content(alloc, text, &value, error)?;
            Ok(0)
        }
        Err(found) if found.is_memory() => Err(AllocError),
        Err(found) => {
            let shape = Shape::of_json_error(found.column(), found.is_eof());
            push_shape(text, line, shape)
        }
    }
}

/// Adds what is wrong with the content of a line that is JSON.
fn push_content(
    alloc: Global,
    text: &mut String,
    value: &Value,
    error: LineError,
) -> Result<(), AllocError> {
    match error {
        LineError::Decode(DecodeError::UnknownKind) => push_unknown_kind(alloc, text, value),
        LineError::Decode(DecodeError::NotAnObject) => push_no_object(text, value),
        LineError::Decode(
            DecodeError::Missing(field)
            | DecodeError::WrongType(field)
            | DecodeError::OutOfRange(field),
        ) => push_member(alloc, text, value, field),
        LineError::PreviousMissing => text.push_str(PREVIOUS_IS_MISSING),
        LineError::PreviousWrongType | LineError::PreviousOutOfRange => {
            push_timestamp(alloc, text, value, "previous", "2^64-1")
        }
        LineError::TimestampOutOfRange => {
            let object = value.get("body").unwrap_or(value);
            push_timestamp(alloc, text, object, "timestamp", "2^63-1")
        }
        LineError::Decode(DecodeError::NotJson | DecodeError::OutOfMemory)
        | LineError::TooLong
        | LineError::OutOfMemory => Ok(()),
    }
}

/// Adds that a line, or its member `body`, is no object.
fn push_no_object(text: &mut String, value: &Value) -> Result<(), AllocError> {
    match value.get("body") {
        Some(body) if body.is_string() => text.push_str(
            "body is a text, and an object is expected: `jq -c '.body |= fromjson' FILE` makes it one",
        ),
        Some(_) => text.push_str("body is no object"),
        None => text.push_str("the line is no JSON object"),
    }
}
