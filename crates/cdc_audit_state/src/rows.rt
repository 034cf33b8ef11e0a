//! The lines of a state's text, after its heading.

ghost use Rattle.std.specs.Prelude.{◌≡◌, ◌≢◌, ◌<◌, ◌≤◌, ℕ, List, IfOk, IfSome, IsSomeAnd, OnOk, length};
ghost use Rattle.cdc_types.specs.declared.events.Event.{Event as Shown};
ghost use Rattle.cdc_audit_state.specs.Rows.{GivesRow, IsEventLine, ReadsFields, ReadsRow, first_of};
ghost use Rattle.cdc_audit_state.specs.Rows.{account_byte, expired_byte, fields_byte, open_byte};
ghost use Rattle.cdc_audit_state.specs.Rows.{pending_byte, plain_byte, settled_byte, time_byte};

use cdc_audit::{FixedFields, Stored};
use cdc_codec::{line, number, number_16, number_32, number_64, skip};
use cdc_follow::read_account;
use cdc_message::{DecodeError, decode};
use cdc_subscriber::BookEntry;
use cdc_types::Event;
use std::alloc::{AllocError, Global};

/// A line of a state's text.
#[derive(Clone, Copy)]
pub(crate) enum Row {
    /// An account, with its last balances.
    Account(BookEntry),
    /// The last expiry.
    Expired(Event),
    /// What is known of the stored transfer with this id.
    Transfer(u128, Stored),
    /// The event that stored an open pending transfer.
    Open(Event),
    /// The fields of the account with this id that never change.
    Fields(u128, FixedFields),
    /// The timestamp of an event.
    Time(u64),
}

/// A line that was read, and the bytes after it.
#[derive(Drop)]
pub(crate) struct ReadRow<'a> {
    pub(crate) row: Row,
    pub(crate) rest: &'a [u8],
}

/// The first byte of a text; 0 if there is none.
fn first(text: &[u8]) -> u8
    ensures { result ≡ first_of text.now }
{
    match text.first() {
        Some(byte) => *byte,
        None => 0,
    }
}

/// The numbers of an account's fixed fields, and the bytes after their line.
fn read_fields(text: &[u8]) -> (FixedFields, &[u8])
    ensures reads { ReadsFields text.now result.0 result.1.now }
    ensures shorter { length result.1.now ≤ length text.now }
{
    let (user_data_128, rest) = number(text);
    let (user_data_64, rest) = number_64(rest);
    let (user_data_32, rest) = number_32(rest);
    let (ledger, rest) = number_32(rest);
    let (code, rest) = number_16(rest);
    let (flags, rest) = number_16(rest);
    let (timestamp, rest) = number_64(rest);
    let fields = FixedFields {
        user_data_128,
        user_data_64,
        user_data_32,
        ledger,
        code,
        flags,
        timestamp,
    };
    (fields, skip(rest, 1))
}

/// An event that was read, and the bytes after its line.
#[derive(Drop)]
pub struct ReadEvent<'a> {
    pub event: Event,
    pub rest: &'a [u8],
}

/// Passes by the error of a text that is no body. The error that memory ran out is one here, too.
fn unless_memory(error: DecodeError) -> Result<(), AllocError>
    ensures { OnOk result (error ≢ DecodeError.OutOfMemory) }
{
    match error {
        DecodeError::OutOfMemory => Err(AllocError),
        _ => Ok(()),
    }
}

/// The event whose body is the first line. `None`: the line is no body. The one error is that memory ran out.
pub fn read_event(alloc: Global, text: &[u8]) -> Result<Option<ReadEvent<'_>>, AllocError>
    ensures reads { IfOk result (λ read. (e : Shown) (left : List ℕ) → IsEventLine text.now e left
        → IsSomeAnd read (λ it. (it.event ≡ e) × (it.rest.now ≡ left))) }
    ensures shorter { IfOk result (λ read. IfSome read (λ it. length it.rest.now ≤ length text.now)) }
{
    let (body, rest) = line(text);
    match decode(alloc, body) {
        Ok(event) => Ok(Some(ReadEvent { event, rest })),
        Err(error) => {
            unless_memory(error)?;
            Ok(None)
        }
    }
}

/// The line of an account.
fn account_row(text: &[u8]) -> ReadRow<'_>
    requires { first_of text.now ≡ account_byte }
    ensures reads { ReadsRow text.now result }
    ensures shorter { length result.rest.now < length text.now }
{
    let (entry, rest) = read_account(text);
    ReadRow {
        row: Row::Account(entry),
        rest,
    }
}

/// The line of a transfer that isn't pending and never was.
fn plain_row(text: &[u8]) -> ReadRow<'_>
    requires { first_of text.now ≡ plain_byte }
    ensures reads { ReadsRow text.now result }
    ensures shorter { length result.rest.now < length text.now }
{
    let (id, rest) = number(skip(text, 5));
    ReadRow {
        row: Row::Transfer(id, Stored::Plain),
        rest: skip(rest, 1),
    }
}

/// The line of a transfer that is pending.
fn held_row(text: &[u8]) -> ReadRow<'_>
    requires { first_of text.now ≡ pending_byte }
    ensures reads { ReadsRow text.now result }
    ensures shorter { length result.rest.now < length text.now }
{
    let (id, rest) = number(skip(text, 4));
    let (amount, rest) = number(rest);
    ReadRow {
        row: Row::Transfer(id, Stored::Pending(amount)),
        rest: skip(rest, 1),
    }
}

/// The line of a transfer that was pending.
fn settled_row(text: &[u8]) -> ReadRow<'_>
    requires { first_of text.now ≡ settled_byte }
    ensures reads { ReadsRow text.now result }
    ensures shorter { length result.rest.now < length text.now }
{
    let (id, rest) = number(skip(text, 7));
    let (amount, rest) = number(rest);
    ReadRow {
        row: Row::Transfer(id, Stored::Settled(amount)),
        rest: skip(rest, 1),
    }
}

/// The line of an account's fixed fields.
fn fields_row(text: &[u8]) -> ReadRow<'_>
    requires { first_of text.now ≡ fields_byte }
    ensures reads { ReadsRow text.now result }
    ensures shorter { length result.rest.now < length text.now }
{
    let (id, rest) = number(skip(text, 6));
    let (fields, rest) = read_fields(rest);
    ReadRow {
        row: Row::Fields(id, fields),
        rest,
    }
}

/// The line of an event's timestamp.
fn time_row(text: &[u8]) -> ReadRow<'_>
    requires { first_of text.now ≡ time_byte }
    ensures reads { ReadsRow text.now result }
    ensures shorter { length result.rest.now < length text.now }
{
    let (timestamp, rest) = number_64(skip(text, 4));
    ReadRow {
        row: Row::Time(timestamp),
        rest: skip(rest, 1),
    }
}

/// The line of the last expiry, if it is one.
fn expired_row(alloc: Global, text: &[u8]) -> Result<Option<ReadRow<'_>>, AllocError>
    requires { first_of text.now ≡ expired_byte }
    ensures reads { IfOk result (λ read. GivesRow text.now read) }
    ensures shorter { IfOk result (λ read. IfSome read (λ it. length it.rest.now < length text.now)) }
{
    match read_event(alloc, skip(text, 8))? {
        Some(read) => Ok(Some(ReadRow {
            row: Row::Expired(read.event),
            rest: read.rest,
        })),
        None => Ok(None),
    }
}

/// The line of an open pending transfer, if it is one.
fn open_row(alloc: Global, text: &[u8]) -> Result<Option<ReadRow<'_>>, AllocError>
    requires { first_of text.now ≡ open_byte }
    ensures reads { IfOk result (λ read. GivesRow text.now read) }
    ensures shorter { IfOk result (λ read. IfSome read (λ it. length it.rest.now < length text.now)) }
{
    match read_event(alloc, skip(text, 5))? {
        Some(read) => Ok(Some(ReadRow {
            row: Row::Open(read.event),
            rest: read.rest,
        })),
        None => Ok(None),
    }
}

/// The first line, if it is one of a state's text. Whether it is just as it would be printed isn't checked.
pub(crate) fn read_row(alloc: Global, text: &[u8]) -> Result<Option<ReadRow<'_>>, AllocError>
    ensures reads { IfOk result (λ read. GivesRow text.now read) }
    ensures shorter { IfOk result (λ read. IfSome read (λ it. length it.rest.now < length text.now)) }
{
    match first(text) {
        b'a' => Ok(Some(account_row(text))),
        b'e' => expired_row(alloc, text),
        b'f' => Ok(Some(fields_row(text))),
        b'h' => Ok(Some(held_row(text))),
        b'o' => open_row(alloc, text),
        b'p' => Ok(Some(plain_row(text))),
        b's' => Ok(Some(settled_row(text))),
        b't' => Ok(Some(time_row(text))),
        _ => Ok(None),
    }
}
