//! The content of a line of a stream.

ghost use Rattle.std.specs.Prelude.{◌≡◌, IfSome, None, Ok, Some, codes, if◌then◌else◌};
ghost use Rattle.std.specs.List.{list_all};
ghost use Rattle.serde_json.specs.Find.{get};
ghost use Rattle.serde_json.specs.View.{view};
ghost use Rattle.cdc_message.specs.Reading.{value_of, whole_number};
ghost use Rattle.cdc_follow.specs.Entries as spec;
ghost use Rattle.cdc_follow.specs.LineErrors.{GivesUnlessMemory};

use crate::errors::LineError;
use cdc_envelopes::fast_envelope;
use cdc_message::{DecodeError, decimal_up_to, event_of, fast_event, is_decimal};
use cdc_types::{Event, Limits};
use serde_json::Value;
use std::alloc::Global;

/// The bytes of a line, at most, without its line feed.
pub const LONGEST_LINE: usize = Limits::LINE_BYTES;

/// What an entry carries.
#[derive(Clone, Copy, Debug, PartialEq, Eq)]
pub enum Content {
    /// An event.
    Event(Event),
    /// The end-of-stream marker: no further event follows.
    End,
}

/// An entry of a stream.
#[derive(Clone, Copy, Debug, PartialEq, Eq)]
pub struct Entry {
    /// What it carries.
    pub content: Content,
    /// The timestamp of the event before it in its queue, 0 before the first; `None` in a stream that isn't chained.
    pub previous: Option<u64>,
}

// The number that a decimal string or a JSON number gives.
fn number_of(value: &Value) -> Result<u64, LineError>
    ensures { result ≡ spec.up_to_64 (whole_number (view value.now)) }
{
    if let Some(text) = value.as_str() {
        let digits = text.as_bytes();
        if !is_decimal(digits) {
            return Err(LineError::PreviousWrongType);
        }
        return match decimal_up_to(digits, u128::from(u64::MAX)) {
            Some(number) => Ok(number as u64),
            None => Err(LineError::PreviousOutOfRange),
        };
    }
    value.as_u64().ok_or(LineError::PreviousWrongType)
}

// The timestamp of the event before, in a chained stream.
fn previous_of(value: &Value, chained: bool) -> Result<Option<u64>, LineError>
    ensures { result ≡ spec.previous_of chained (view value.now) }
{
    if !chained {
        return Ok(None);
    }
    match value.get("previous") {
        Some(previous) => Ok(Some(number_of(previous)?)),
        None => Err(LineError::PreviousMissing),
    }
}

// Whether a value is the end of a stream.
fn is_end(value: &Value) -> bool
    ensures { result ≡ spec.is_true (get (codes "end") (view value.now)) }
{
    match value.get("end") {
        Some(end) => end.as_bool() == Some(true),
        None => false,
    }
}

// The event of a body or an envelope, or the end.
fn content_of(value: &Value) -> Result<Content, LineError>
    ensures { result ≡ spec.content_of (view value.now) }
{
    let error = match event_of(value) {
        Ok(event) => return Ok(Content::Event(event)),
        Err(error) => error,
    };
    if let Some(body) = value.get("body") {
        return Ok(Content::Event(event_of(body)?));
    }
    if is_end(value) {
        Ok(Content::End)
    } else {
        Err(LineError::from(error))
    }
}

// The entry of a value.
fn entry_of(value: &Value, chained: bool) -> Result<Entry, LineError>
    ensures { result ≡ spec.entry_of chained (view value.now) }
{
    let content = content_of(value)?;
    let previous = previous_of(value, chained)?;
    Ok(Entry { content, previous })
}

// Whether a byte is white space within a line.
fn is_space(byte: u8) -> bool
    ensures { result ≡ spec.is_space byte }
{
    byte == b' ' || byte == b'\t' || byte == b'\r'
}

// Whether a line has white space alone.
fn is_blank(line: &[u8]) -> bool
    ensures { result ≡ list_all spec.is_space line.now }
{
    line.iter().all(|byte| is_space(*byte))
}

// Whether a line is ignored.
fn is_ignored(line: &[u8]) -> bool
    ensures { result ≡ spec.is_ignored line.now }
{
    is_blank(line) || line.starts_with(b"event_type=")
}

// The entry of a JSON text.
fn value_entry(alloc: Global, line: &[u8], chained: bool) -> Result<Option<Entry>, LineError>
    ensures { GivesUnlessMemory result (spec.value_entry chained (value_of line.now)) }
{
    match Value::from_slice(alloc, line) {
        Ok(value) => Ok(Some(entry_of(&value, chained)?)),
        Err(error) if error.is_memory() => Err(LineError::OutOfMemory),
        Err(_) => Err(LineError::Decode(DecodeError::NotJson)),
    }
}

// The event of a line that is a body alone, which a chained stream doesn't have.
fn body_entry(line: &[u8], chained: bool) -> Option<Entry>
    ensures { IfSome result (λ entry. spec.value_entry chained (value_of line.now) ≡ Ok (Some entry)) }
{
    if !chained {
        if let Some(event) = fast_event(line) {
            return Some(Entry {
                content: Content::Event(event),
                previous: None,
            });
        }
    }
    None
}

// What is named as the event before, in a chained stream.
fn previous_if(chained: bool, previous: u64) -> Option<u64>
    ensures { result ≡ (if chained then Some previous else None) }
{
    if chained { Some(previous) } else { None }
}

// The event of a line that is an envelope.
fn envelope_entry(line: &[u8], chained: bool) -> Option<Entry>
    ensures { IfSome result (λ entry. spec.value_entry chained (value_of line.now) ≡ Ok (Some entry)) }
{
    let read = fast_envelope(line)?;
    let previous = previous_if(chained, read.previous);
    Some(Entry {
        content: Content::Event(read.event),
        previous,
    })
}

// The event of a line in a layout that is read without a JSON value.
fn fast_entry(line: &[u8], chained: bool) -> Option<Entry>
    ensures { IfSome result (λ entry. spec.value_entry chained (value_of line.now) ≡ Ok (Some entry)) }
{
    match envelope_entry(line, chained) {
        Some(entry) => Some(entry),
        None => body_entry(line, chained),
    }
}

/// The entry of a line, if it has one: an event, by its body or by an envelope round that, or the end. In a chained
/// stream each entry has to name what came before it in its queue.
pub fn read_entry(alloc: Global, line: &[u8], chained: bool) -> Result<Option<Entry>, LineError>
    ensures { GivesUnlessMemory result (spec.line_entry chained line.now) }
{
    if line.len() > LONGEST_LINE {
        return Err(LineError::TooLong);
    }
    if is_ignored(line) {
        return Ok(None);
    }
    if let Some(entry) = fast_entry(line, chained) {
        return Ok(Some(entry));
    }
    value_entry(alloc, line, chained)
}
