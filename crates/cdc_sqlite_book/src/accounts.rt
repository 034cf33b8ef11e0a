//! The accounts that the rows of a book hold, by their numbers, in the order of the rows.

ghost use Rattle.std.specs.Prelude.{◌≡◌, ◌≤◌, if◌then◌else◌, length, IfOk};
ghost use Rattle.indexmap.specs.IndexMap.{spare};
ghost use Rattle.cdc_subscriber.specs.Book.{entries_of, ids_of, is_among};
ghost use Rattle.cdc_book_log.specs.Replay.{put_all};
ghost use Rattle.cdc_sqlite_book.specs.Tables.{place_in};

use cdc_keys::{HashKey, KeyedMap};
use cdc_subscriber::Book;
use cdc_types::Balances;
use indexmap::IndexMap;
use std::alloc::{AllocError, Global};

/// The index of the account with this number, from 0; `next` if it isn't there.
pub fn place_for(accounts: &KeyedMap<u128, Balances>, id: u128, next: usize) -> usize
    ensures { result ≡ (if is_among id (ids_of (entries_of accounts.now.entries))
        then place_in (entries_of accounts.now.entries) id else next) }
{
    match accounts.get_index_of(&id) {
        Some(index) => index,
        None => next,
    }
}

/// Puts the accounts of a book into others, which have room for them: each takes the place of the one with its number,
/// or comes last.
pub fn put_accounts(accounts: &mut KeyedMap<u128, Balances>, changed: &Book)
    requires { length changed.now ≤ spare accounts.old }
    ensures { entries_of accounts.new.entries ≡ put_all changed.now (entries_of accounts.old.entries) }
{
    'accounts: for place in 0..changed.len() {
        if let Some((id, balances)) = changed.at_place(place) {
            let _before = accounts.insert(id, balances).unwrap();
        }
    }
}

/// The accounts of a book, by numbers that are hashed with this key.
pub fn accounts_of(
    alloc: Global,
    key: HashKey,
    book: &Book,
) -> Result<KeyedMap<u128, Balances>, AllocError>
    ensures { IfOk result (λ accounts. entries_of accounts.entries ≡ book.now) }
{
    let mut accounts = IndexMap::with_hasher(alloc, key);
    accounts.reserve(book.len())?;
    put_accounts(&mut accounts, book);
    Ok(accounts)
}
