//! Accounts, into which the accounts of records are put.

ghost use Rattle.std.specs.Prelude.{◌≡◌, IfOk, OnOk};
ghost use Rattle.cdc_book_log.specs.Replay.{put_all};
ghost use Rattle.cdc_subscriber.specs.Book.{entries_of};

use cdc_keys::KeyedMap;
use cdc_subscriber::{Book, BookEntry};
use cdc_types::Balances;
use std::alloc::{AllocError, Global};

/// Puts the accounts of a book into others: each takes the place of the one with its number, or comes last. After an
/// error, the first ones may have been put.
pub(crate) fn put_accounts(
    accounts: &mut KeyedMap<u128, Balances>,
    changed: &Book,
) -> Result<(), AllocError>
    ensures { OnOk result (entries_of accounts.new.entries
        ≡ put_all changed.now (entries_of accounts.old.entries)) }
{
    'accounts: for place in 0..changed.len() {
        if let Some((id, balances)) = changed.at_place(place) {
            accounts.insert(id, balances)?;
        }
    }
    Ok(())
}

/// The book of accounts.
pub(crate) fn book_of(
    alloc: Global,
    accounts: &KeyedMap<u128, Balances>,
) -> Result<Book, AllocError>
    ensures { IfOk result (λ book. book ≡ entries_of accounts.now.entries) }
{
    let mut book = Book::keyed(alloc, *accounts.hasher());
    for (id, balances) in accounts.iter() {
        let entry = BookEntry {
            id: *id,
            balances: *balances,
        };
        let _added = book.push(entry)?;
    }
    Ok(book)
}
