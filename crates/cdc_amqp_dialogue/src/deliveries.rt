//! The entry that a delivery carries.

ghost use Rattle.std.specs.Prelude.{◌≡◌, ℕ, List, codes, false, Some};
ghost use Rattle.std.specs.Int.{w32, w64};
ghost use Rattle.std.specs.Option.{option_map};
ghost use Rattle.cdc_amqp_frames.specs.Fields.{number_at};
ghost use Rattle.cdc_amqp_methods.specs.Tables.{view, views};
ghost use Rattle.cdc_follow.specs.LineErrors.{GivesUnlessMemory};
ghost use Rattle.cdc_amqp_dialogue.specs.Deliveries as spec;

use cdc_amqp_frames::{u32_at, u64_at};
use cdc_amqp_methods::{Field, find_field};
use cdc_follow::{Content, Entry, LineError, read_entry};
use cdc_message::{DecodeError, decimal_up_to, is_decimal};
use cdc_types::Limits;
use std::alloc::Global;

// The number that a decimal text represents.
fn text_number(text: &[u8]) -> Result<u64, LineError>
    ensures { result ≡ spec.text_number text.now }
{
    if !is_decimal(text) {
        return Err(LineError::PreviousWrongType);
    }
    match decimal_up_to(text, u128::from(u64::MAX)) {
        Some(number) => Ok(number as u64),
        None => Err(LineError::PreviousOutOfRange),
    }
}

// A signed number of 32 bits that isn't negative.
fn number_32(value: &[u8]) -> Result<u64, LineError>
    ensures { result ≡ spec.signed 2147483648 (number_at w32 value.now) }
{
    match u32_at(value) {
        Some((number, _)) if number < 0x8000_0000 => Ok(u64::from(number)),
        _ => Err(LineError::PreviousWrongType),
    }
}

// A signed number of 64 bits that isn't negative.
fn number_64(value: &[u8]) -> Result<u64, LineError>
    ensures { result ≡ spec.signed 9223372036854775808 (number_at w64 value.now) }
{
    match u64_at(value) {
        Some((number, _)) if number < 0x8000_0000_0000_0000 => Ok(number),
        _ => Err(LineError::PreviousWrongType),
    }
}

// The number of a field.
fn field_number(field: Field<'_>) -> Result<u64, LineError>
    ensures { result ≡ spec.field_number (view field.entry) }
{
    match field.letter {
        b'S' => text_number(field.value),
        b'I' => number_32(field.value),
        b'l' => number_64(field.value),
        _ => Err(LineError::PreviousWrongType),
    }
}

// The header `previous`, if a message has it.
#[tactic(auto, unfolding(crate::specs::Deliveries::header_previous))]
fn header_previous(headers: &[u8]) -> Result<Option<u64>, LineError>
    ensures { result ≡ spec.header_previous headers.now }
{
    match find_field(b"previous", headers) {
        None => Err(LineError::PreviousWrongType),
        Some(None) => Ok(None),
        Some(Some(field)) => match field_number(field) {
            Ok(number) => Ok(Some(number)),
            Err(error) => Err(error),
        },
    }
}

// Whether a message of this type is an end-of-stream marker.
fn is_end(message_type: &[u8]) -> bool
    ensures { result ≡ spec.is_end message_type.now }
{
    message_type == b"end".as_slice()
}

// The entry of a content.
fn content_entry(alloc: Global, chained: bool, content: &[u8]) -> Result<Entry, LineError>
    ensures { GivesUnlessMemory result (spec.content_entry chained content.now) }
{
    match read_entry(alloc, content, chained) {
        Ok(Some(entry)) => Ok(entry),
        Ok(None) => Err(LineError::Decode(DecodeError::NotJson)),
        Err(error) => Err(error),
    }
}

// The entry of a content whose predecessor is this one.
fn entry_after(alloc: Global, previous: u64, content: &[u8]) -> Result<Entry, LineError>
    ensures { GivesUnlessMemory result
        (spec.entry_after (Some previous) (spec.content_entry false content.now)) }
{
    match content_entry(alloc, false, content) {
        Ok(entry) => Ok(Entry {
            content: entry.content,
            previous: Some(previous),
        }),
        Err(error) => Err(error),
    }
}

// The entry of a message of a chained queue.
#[tactic(auto, unfolding(crate::specs::Deliveries::chained_entry))]
fn chained_entry(
    alloc: Global,
    previous: Option<u64>,
    message_type: &[u8],
    content: &[u8],
) -> Result<Entry, LineError>
    ensures { (headers : List ℕ) → GivesUnlessMemory result (spec.chained_entry
        (record { headers = headers; message_type = message_type.now; content = content.now }) previous) }
{
    match previous {
        Some(number) if is_end(message_type) => Ok(Entry {
            content: Content::End,
            previous: Some(number),
        }),
        Some(number) => entry_after(alloc, number, content),
        None if is_end(message_type) => Err(LineError::PreviousMissing),
        None => content_entry(alloc, true, content),
    }
}

// The entry of a message of another queue.
#[tactic(auto, unfolding(crate::specs::Deliveries::plain_entry))]
fn plain_entry(alloc: Global, message_type: &[u8], content: &[u8]) -> Result<Entry, LineError>
    ensures { (headers : List ℕ) → GivesUnlessMemory result (spec.plain_entry
        (record { headers = headers; message_type = message_type.now; content = content.now })) }
{
    if is_end(message_type) {
        return Ok(Entry {
            content: Content::End,
            previous: None,
        });
    }
    content_entry(alloc, false, content)
}

// The entry that a message carries, whatever its timestamp is.
#[tactic(auto, unfolding(crate::specs::Deliveries::any_entry))]
fn any_entry(
    alloc: Global,
    chained: bool,
    headers: &[u8],
    message_type: &[u8],
    content: &[u8],
) -> Result<Entry, LineError>
    ensures { GivesUnlessMemory result (spec.any_entry chained
        (record { headers = headers.now; message_type = message_type.now; content = content.now })) }
{
    if !chained {
        return plain_entry(alloc, message_type, content);
    }
    match header_previous(headers) {
        Ok(previous) => chained_entry(alloc, previous, message_type, content),
        Err(error) => Err(error),
    }
}

// The entry, unless it is an event that is later than a ledger's greatest timestamp.
fn in_range(entry: Entry) -> Result<Entry, LineError>
    ensures { result ≡ spec.in_range entry }
{
    match &entry.content {
        Content::Event(event) if event.timestamp > Limits::TIMESTAMP => {
            Err(LineError::TimestampOutOfRange)
        }
        _ => Ok(entry),
    }
}

/// The entry that a message carries, by its properties `headers` and `type` and its content. In a chained queue the
/// predecessor is the header `previous`, or the member of the content if there is no such header. A message of the type
/// `end` is the end-of-stream marker.
#[tactic(auto, unfolding(crate::specs::Deliveries::delivery_entry))]
pub fn delivery_entry(
    alloc: Global,
    chained: bool,
    headers: &[u8],
    message_type: &[u8],
    content: &[u8],
) -> Result<Entry, LineError>
    ensures { GivesUnlessMemory result (spec.delivery_entry chained
        (record { headers = headers.now; message_type = message_type.now; content = content.now })) }
{
    match any_entry(alloc, chained, headers, message_type, content) {
        Ok(entry) => in_range(entry),
        Err(error) => Err(error),
    }
}

/// How often a message was delivered before, by the header `x-delivery-count` of a quorum queue, if it has that.
pub fn delivery_count(headers: &[u8]) -> Option<u64>
    ensures { result ≡ spec.delivery_count headers.now }
{
    match find_field(b"x-delivery-count", headers) {
        Some(Some(field)) => field_number(field).ok(),
        Some(None) | None => None,
    }
}
