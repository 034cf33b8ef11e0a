//! What is known of the accounts that the rows of a book hold, besides their balances.

ghost use Rattle.std.specs.Prelude.{◌≡◌, ◌==◌, ◌≤◌, ◌+◌, ℕ, true, if◌then◌else◌, length, IfOk};
ghost use Rattle.std.specs.Option.{option_map};
ghost use Rattle.indexmap.specs.IndexMap.{spare};
ghost use Rattle.cdc_subscriber.specs.Book.{ids_of, is_among};
ghost use Rattle.cdc_book_log.specs.Details.{details_in};
ghost use Rattle.cdc_sqlite_book.specs.Tables.{newest, newest_if, renewed};

use cdc_book_log::Details;
use cdc_keys::{HashKey, KeyedMap};
use cdc_subscriber::Book;
use indexmap::IndexMap;
use std::alloc::{AllocError, Global};

/// What is known of the account with this number.
pub fn details_for(known: &KeyedMap<u128, Details>, id: u128) -> Option<Details>
    ensures { result ≡ details_in known.now.entries id }
{
    known.get(&id).copied()
}

/// What is known of the account with this number: what was shown since, or else what was known before.
pub fn newest_for(
    shown: &KeyedMap<u128, Details>,
    before: &KeyedMap<u128, Details>,
    id: u128,
) -> Option<Details>
    ensures { result ≡ newest shown.now.entries before.now.entries id }
{
    match details_for(shown, id) {
        Some(details) => Some(details),
        None => details_for(before, id),
    }
}

/// Puts what was shown of an account into what was known before, where there is room for it.
fn put_shown(known: &mut KeyedMap<u128, Details>, id: u128, shown: &KeyedMap<u128, Details>)
    requires { 1 ≤ spare known.old }
    ensures details { (other : ℕ) → details_in known.new.entries other
        ≡ (if id == other then newest shown.now.entries known.old.entries other
        else details_in known.old.entries other) }
    ensures room { spare known.old ≤ spare known.new + 1 }
{
    match details_for(shown, id) {
        Some(details) => {
            let _before = known.insert(id, details).unwrap();
        }
        None => {}
    }
}

/// Puts what was shown of the accounts that changed into what was known before, where there is room for it.
pub fn put_details(
    known: &mut KeyedMap<u128, Details>,
    changed: &Book,
    shown: &KeyedMap<u128, Details>,
)
    requires { length changed.now ≤ spare known.old }
    ensures { (id : ℕ) → details_in known.new.entries id
        ≡ renewed changed.now shown.now.entries known.old.entries id }
{
    'accounts: for place in 0..changed.len() {
        if let Some((id, _balances)) = changed.at_place(place) {
            put_shown(known, id, shown);
        }
    }
}

/// What is known of the accounts of a book, by numbers that are hashed with this key: what was shown since, or else what
/// was known before.
fn known_details(
    alloc: Global,
    key: HashKey,
    book: &Book,
    shown: &KeyedMap<u128, Details>,
    before: &KeyedMap<u128, Details>,
) -> Result<KeyedMap<u128, Details>, AllocError>
    ensures { IfOk result (λ known. (id : ℕ) → is_among id (ids_of book.now) ≡ true
        → details_in known.entries id ≡ newest shown.now.entries before.now.entries id) }
{
    let mut known = IndexMap::with_hasher(alloc, key);
    known.reserve(book.len())?;
    put_details(&mut known, book, before);
    known.reserve(book.len())?;
    put_details(&mut known, book, shown);
    Ok(known)
}

/// The same, if it is known what was shown since; else nothing is known.
pub fn details_of(
    alloc: Global,
    key: HashKey,
    book: &Book,
    shown: &Option<KeyedMap<u128, Details>>,
    before: &KeyedMap<u128, Details>,
) -> Result<KeyedMap<u128, Details>, AllocError>
    ensures { IfOk result (λ known. (id : ℕ) → is_among id (ids_of book.now) ≡ true
        → details_in known.entries id
        ≡ newest_if (option_map (λ known. known.entries) shown.now) before.now.entries id) }
{
    match shown {
        Some(shown) => known_details(alloc, key, book, shown, before),
        None => Ok(IndexMap::with_hasher(alloc, key)),
    }
}
