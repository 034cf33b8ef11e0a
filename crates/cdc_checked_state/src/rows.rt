//! The lines of a state's text, after its heading.

ghost use Rattle.std.specs.Prelude.{◌≡◌, ◌<◌, ◌≤◌, IfOk, IfSome, length};
ghost use Rattle.cdc_audit_state.specs.Rows.{first_of};
ghost use Rattle.cdc_checked_state.specs.Rows.{GivesRow, ReadsKnown, ReadsRow, account_byte, known_byte, open_byte};

use cdc_audit_state::read_event;
use cdc_checked::KnownAccount;
use cdc_codec::{number, number_64, skip};
use cdc_follow::read_account;
use cdc_subscriber::BookEntry;
use cdc_types::{Balances, Event};
use std::alloc::{AllocError, Global};

/// A line of a state's text.
#[derive(Clone, Copy)]
pub(crate) enum Row {
    /// An account of the book.
    Account(BookEntry),
    /// What the checker knows of the account with this id.
    Known(u128, KnownAccount),
    /// The event that stored an open pending transfer.
    Open(Event),
}

/// A line that was read, and the bytes after it.
#[derive(Drop)]
pub(crate) struct ReadRow<'a> {
    pub(crate) row: Row,
    pub(crate) rest: &'a [u8],
}

/// The first byte of a text; 0 if there is none.
fn first(text: &[u8]) -> u8
    ensures { result ≡ first_of text.now }
{
    match text.first() {
        Some(byte) => *byte,
        None => 0,
    }
}

/// The numbers of what is known of an account, and the bytes after their line.
fn read_known(text: &[u8]) -> (KnownAccount, &[u8])
    ensures reads { ReadsKnown text.now result.0 result.1.now }
    ensures shorter { length result.1.now ≤ length text.now }
{
    let (debits_pending, rest) = number(text);
    let (debits_posted, rest) = number(rest);
    let (credits_pending, rest) = number(rest);
    let (credits_posted, rest) = number(rest);
    let (last, rest) = number_64(rest);
    let balances = Balances {
        debits_pending,
        debits_posted,
        credits_pending,
        credits_posted,
    };
    (KnownAccount { balances, last }, skip(rest, 1))
}

/// The line of an account of the book.
fn account_row(text: &[u8]) -> ReadRow<'_>
    requires { first_of text.now ≡ account_byte }
    ensures reads { ReadsRow text.now result }
    ensures shorter { length result.rest.now < length text.now }
{
    let (entry, rest) = read_account(text);
    ReadRow {
        row: Row::Account(entry),
        rest,
    }
}

/// The line of an account that the checker knows.
fn known_row(text: &[u8]) -> ReadRow<'_>
    requires { first_of text.now ≡ known_byte }
    ensures reads { ReadsRow text.now result }
    ensures shorter { length result.rest.now < length text.now }
{
    let (id, rest) = number(skip(text, 5));
    let (known, rest) = read_known(rest);
    ReadRow {
        row: Row::Known(id, known),
        rest,
    }
}

/// The line of an open pending transfer, if it is one.
fn open_row(alloc: Global, text: &[u8]) -> Result<Option<ReadRow<'_>>, AllocError>
    requires { first_of text.now ≡ open_byte }
    ensures reads { IfOk result (λ read. GivesRow text.now read) }
    ensures shorter { IfOk result (λ read. IfSome read (λ it. length it.rest.now < length text.now)) }
{
    match read_event(alloc, skip(text, 5))? {
        Some(read) => Ok(Some(ReadRow {
            row: Row::Open(read.event),
            rest: read.rest,
        })),
        None => Ok(None),
    }
}

/// The first line, if it is one of a state's text. Whether it is just as it would be printed isn't checked.
pub(crate) fn read_row(alloc: Global, text: &[u8]) -> Result<Option<ReadRow<'_>>, AllocError>
    ensures reads { IfOk result (λ read. GivesRow text.now read) }
    ensures shorter { IfOk result (λ read. IfSome read (λ it. length it.rest.now < length text.now)) }
{
    match first(text) {
        b'a' => Ok(Some(account_row(text))),
        b'k' => Ok(Some(known_row(text))),
        b'o' => open_row(alloc, text),
        _ => Ok(None),
    }
}
