//! Reads an event from its JSON text.

ghost use Rattle.std.specs.Prelude.{◌≡◌, ◌<◌, ◌≤◌, ◌^◌, ◌-◌, length, Ok, Err, IfOk, IfSome};
ghost use Rattle.serde_json.specs.Data.{string};
ghost use Rattle.serde_json.specs.View.{view};
ghost use Rattle.cdc_types.specs.declared.events.Event.{Event};
ghost use Rattle.cdc_message.specs.Errors.{GivesUnlessMemory};
ghost use Rattle.cdc_message.specs.Fields.{field as field_of};
ghost use Rattle.cdc_message.specs.Found.{Finds, number_in};
ghost use Rattle.cdc_message.specs.OwnBodies.{IsOwnBody};
ghost use Rattle.cdc_message.specs.Reading as spec;
ghost use Rattle.cdc_message.specs.declared.fields.Part.TheVariants.{Top, Transfer};

use crate::decimals::{is_decimal, value_of_text};
use crate::errors::DecodeError;
use crate::fields::{Field, FieldName, Part};
use crate::kinds::kind_named;
use crate::own_bodies::own_event;
use crate::unordered_bodies::documented_event;
use cdc_types::{Event, EventAccount, EventKind, EventTransfer};
use serde_json::Value;
use std::alloc::Global;

fn member(object: &Value, field: Field) -> Result<&Value, DecodeError>
    ensures { Finds result (spec.member_at field (view object.now)) }
{
    object
        .get(field.name.key())
        .ok_or(DecodeError::Missing(field))
}

// The number that a string of digits represents; leading zeros are allowed.
fn decimal(text: &str, field: Field) -> Result<u128, DecodeError>
    ensures { result ≡ number_in field (string text.now) }
{
    if !is_decimal(text.as_bytes()) {
        return Err(DecodeError::WrongType(field));
    }
    value_of_text(text).ok_or(DecodeError::OutOfRange(field))
}

// The number that a decimal string or a JSON number represents.
fn whole_number(value: &Value, field: Field) -> Result<u128, DecodeError>
    ensures { result ≡ number_in field (view value.now) }
{
    if let Some(text) = value.as_str() {
        return decimal(text, field);
    }
    match value.as_u64() {
        Some(number) => Ok(u128::from(number)),
        None => Err(DecodeError::WrongType(field)),
    }
}

fn number_up_to(object: &Value, field: Field, max: u128) -> Result<u128, DecodeError>
    ensures value { result ≡ spec.number_up_to max field (view object.now) }
    ensures most { IfOk result (λ number. number ≤ max) }
{
    let number = whole_number(member(object, field)?, field)?;
    if number <= max {
        Ok(number)
    } else {
        Err(DecodeError::OutOfRange(field))
    }
}

fn u128_at(object: &Value, part: Part, name: FieldName) -> Result<u128, DecodeError>
    ensures { result ≡ spec.number_at 128 (field_of part name) (view object.now) }
{
    number_up_to(object, Field { part, name }, u128::MAX)
}

fn u64_at(object: &Value, part: Part, name: FieldName) -> Result<u64, DecodeError>
    ensures { result ≡ spec.number_at 64 (field_of part name) (view object.now) }
{
    let max = u128::from(u64::MAX);
    Ok(number_up_to(object, Field { part, name }, max)? as u64)
}

fn u32_at(object: &Value, part: Part, name: FieldName) -> Result<u32, DecodeError>
    ensures { result ≡ spec.number_at 32 (field_of part name) (view object.now) }
{
    let max = u128::from(u32::MAX);
    Ok(number_up_to(object, Field { part, name }, max)? as u32)
}

fn u16_at(object: &Value, part: Part, name: FieldName) -> Result<u16, DecodeError>
    ensures { result ≡ spec.number_at 16 (field_of part name) (view object.now) }
{
    let max = u128::from(u16::MAX);
    Ok(number_up_to(object, Field { part, name }, max)? as u16)
}

fn kind_at(object: &Value) -> Result<EventKind, DecodeError>
    ensures { result ≡ spec.kind_at (view object.now) }
{
    let field = Field {
        part: Part::Top,
        name: FieldName::Kind,
    };
    match member(object, field)?.as_str() {
        Some(text) => kind_named(text).ok_or(DecodeError::UnknownKind),
        None => Err(DecodeError::WrongType(field)),
    }
}

fn part_at(object: &Value, name: FieldName) -> Result<&Value, DecodeError>
    ensures { Finds result (spec.part_at name (view object.now)) }
{
    let field = Field {
        part: Part::Top,
        name,
    };
    let value = member(object, field)?;
    if value.is_object() {
        Ok(value)
    } else {
        Err(DecodeError::WrongType(field))
    }
}

fn transfer_of(object: &Value) -> Result<EventTransfer, DecodeError>
    ensures { result ≡ spec.transfer_of (view object.now) }
{
    let part = Part::Transfer;
    Ok(EventTransfer {
        id: u128_at(object, part, FieldName::Id)?,
        amount: u128_at(object, part, FieldName::Amount)?,
        pending_id: u128_at(object, part, FieldName::PendingId)?,
        user_data_128: u128_at(object, part, FieldName::UserData128)?,
        user_data_64: u64_at(object, part, FieldName::UserData64)?,
        user_data_32: u32_at(object, part, FieldName::UserData32)?,
        timeout: u32_at(object, part, FieldName::Timeout)?,
        code: u16_at(object, part, FieldName::Code)?,
        flags: u16_at(object, part, FieldName::Flags)?,
        timestamp: u64_at(object, part, FieldName::Timestamp)?,
    })
}

fn account_of(object: &Value, part: Part) -> Result<EventAccount, DecodeError>
    ensures { result ≡ spec.account_of part (view object.now) }
{
    Ok(EventAccount {
        id: u128_at(object, part, FieldName::Id)?,
        debits_pending: u128_at(object, part, FieldName::DebitsPending)?,
        debits_posted: u128_at(object, part, FieldName::DebitsPosted)?,
        credits_pending: u128_at(object, part, FieldName::CreditsPending)?,
        credits_posted: u128_at(object, part, FieldName::CreditsPosted)?,
        user_data_128: u128_at(object, part, FieldName::UserData128)?,
        user_data_64: u64_at(object, part, FieldName::UserData64)?,
        user_data_32: u32_at(object, part, FieldName::UserData32)?,
        code: u16_at(object, part, FieldName::Code)?,
        flags: u16_at(object, part, FieldName::Flags)?,
        timestamp: u64_at(object, part, FieldName::Timestamp)?,
    })
}

fn transfer_at(object: &Value) -> Result<EventTransfer, DecodeError>
    ensures { result ≡ spec.transfer_at (view object.now) }
{
    transfer_of(part_at(object, FieldName::TransferPart)?)
}

fn account_at(object: &Value, name: FieldName, part: Part) -> Result<EventAccount, DecodeError>
    ensures { result ≡ spec.account_at name part (view object.now) }
{
    account_of(part_at(object, name)?, part)
}

/// Reads an event from a JSON value, as `decode` reads it from a body's text.
pub fn event_of(value: &Value) -> Result<Event, DecodeError>
    ensures { result ≡ spec.event_of (view value.now) }
{
    if !value.is_object() {
        return Err(DecodeError::NotAnObject);
    }
    Ok(Event {
        timestamp: u64_at(value, Part::Top, FieldName::Timestamp)?,
        kind: kind_at(value)?,
        ledger: u32_at(value, Part::Top, FieldName::Ledger)?,
        transfer: transfer_at(value)?,
        debit_account: account_at(value, FieldName::DebitAccount, Part::Debit)?,
        credit_account: account_at(value, FieldName::CreditAccount, Part::Credit)?,
    })
}

/// The event of a body in the layout that `encode` writes or in the documented one, read without a JSON value and
/// without allocating. `None` for other bodies, which `decode` reads.
pub fn fast_event(bytes: &[u8]) -> Option<Event>
    ensures event { IfSome result (λ event. spec.read bytes.now ≡ Ok event) }
    ensures complete { (event : Event) → IsOwnBody bytes.now event → result ≡ Some event }
{
    match own_event(bytes) {
        Some(event) => Some(event),
        None => documented_event(bytes),
    }
}

// The event of a body, read by way of a JSON value.
fn decode_value(alloc: Global, bytes: &[u8]) -> Result<Event, DecodeError>
    ensures event { GivesUnlessMemory result (spec.read bytes.now) }
    ensures memory { result ≡ Err DecodeError.OutOfMemory → 0 < length bytes.now }
{
    match Value::from_slice(alloc, bytes) {
        Ok(value) => event_of(&value),
        Err(error) if error.is_memory() => Err(DecodeError::OutOfMemory),
        Err(_) => Err(DecodeError::NotJson),
    }
}

/// The event that a body represents. Members may be in any order, with white space between them, and with additional
/// members; a number may be a decimal string or a JSON number (TigerBeetle, Change Data Capture). The error is the
/// first one in the order in which fields are checked, or out of memory. A body that `encode` writes is read, and an
/// empty one refused, without allocating.
pub fn decode(alloc: Global, bytes: &[u8]) -> Result<Event, DecodeError>
    ensures event { GivesUnlessMemory result (spec.read bytes.now) }
    ensures memory { result ≡ Err DecodeError.OutOfMemory → 0 < length bytes.now }
    ensures own { (event : Event) → IsOwnBody bytes.now event → result ≡ Ok event }
{
    match fast_event(bytes) {
        Some(event) => Ok(event),
        None => decode_value(alloc, bytes),
    }
}
