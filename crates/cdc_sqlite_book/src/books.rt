//! The book in a database: reading its text, and replacing it.

ghost use Rattle.std.specs.Prelude.{◌≡◌, ◌↔◌, [], ℕ, List, false, Some, is_none, IsTrue, IfOk, IsSomeAnd, OnOk};
ghost use Rattle.std.specs.Option.{option_map};
ghost use Rattle.sqlite.specs.Held.{state};
ghost use Rattle.sqlite.specs.State.{HasCleanDisk, Survives};
ghost use Rattle.cdc_subscriber.specs.SubscriberState.{SubscriberState};
ghost use Rattle.cdc_subscriber.specs.Book.{entries_of};
ghost use Rattle.cdc_book_log.specs.Details.{details_in};
ghost use Rattle.cdc_sqlite_book.specs.Tables.{HoldsBook, HoldsText, IsOfBook, IsSchemaIf, MayHold, changed as kept_after, renewed, MayChange};

use crate::tables::{find_text, save_changes, save_rows};
use cdc_book_log::Details;
use cdc_keys::KeyedMap;
use cdc_subscriber::Subscriber;
use cdc_types::Balances;
use sqlite::{Alter, Connection, Error, ErrorCode};
use sqlite_schema::schema::Schema;

/// The error of a database that holds no book, or another one than expected.
pub const NO_BOOK: Error = Error::SqliteFailure(ErrorCode::NotADatabase);

/// Whether a database has no table and no view.
fn is_new(schema: &Schema) -> bool
    ensures { IsTrue result ↔ ((schema.now.tables ≡ []) × (schema.now.views ≡ [])) }
{
    schema.tables.is_empty() && schema.views.is_empty()
}

/// Whether a database has the tables of a book, by their names, and no other, nor an index or a view.
fn is_book(schema: &Schema) -> bool {
    let tables = schema.tables.as_slice();
    tables.len() == 2
        && tables[0].name.as_slice() == b"book".as_slice()
        && tables[1].name.as_slice() == b"accounts".as_slice()
        && schema.indexes.is_empty()
        && schema.views.is_empty()
}

/// The text of the book in a database; `None` if there is no table yet. A database with other tables is refused.
pub fn read_text<S: Alter>(conn: &mut Connection<S>) -> Result<Option<Vec<u8>>, Error>
    ensures mode { conn.old.in_transaction ≡ false → conn.new.in_transaction ≡ false }
    ensures found { HasCleanDisk (state S.Store conn.new) → (text : List ℕ)
        → HoldsText text (state S.Store conn.old).now
        → IfOk result (λ found. IsSomeAnd found (λ it. it.items ≡ text)) }
    ensures same { HasCleanDisk (state S.Store conn.new) → IsOfBook (state S.Store conn.old).now.schema
        → OnOk result ((state S.Store conn.new).now ≡ (state S.Store conn.old).now) }
    ensures survives { Survives (state S.Store conn.old) (state S.Store conn.new)
        (λ _. ¬ IsOfBook (state S.Store conn.old).now.schema) }
{
    if is_new(conn.schema()) {
        return Ok(None);
    }
    if !is_book(conn.schema()) {
        return Err(NO_BOOK);
    }
    let row = find_text(conn)?;
    let text: Vec<u8> = row.get(0)?;
    Ok(Some(text))
}

/// The bytes of a text, if there is one.
pub fn text_in(text: &Option<Vec<u8>>) -> Option<&[u8]>
    ensures { option_map (λ it. it.now) result ≡ option_map (λ it. it.items) text.now }
{
    match text {
        Some(text) => Some(text.as_slice()),
        None => None,
    }
}

/// Whether two texts are the same, or there is neither.
fn is_same(found: Option<&[u8]>, known: Option<&[u8]>) -> bool
    ensures { IsTrue result ↔ (option_map (λ it. it.now) found.entry ≡ option_map (λ it. it.now) known.entry) }
{
    match (found, known) {
        (None, None) => true,
        (Some(found), Some(known)) => found == known,
        _ => false,
    }
}

/// Saves the text of a book, what its subscriber keeps, and what is known of its accounts, in place of the book that is
/// known to be there, if one is. It is refused if another one is there.
pub fn replace<S: Alter>(
    conn: &mut Connection<S>,
    known: Option<&[u8]>,
    text: &[u8],
    subscriber: &Subscriber,
    details: &KeyedMap<u128, Details>,
) -> Result<(), Error>
    requires { conn.old.in_transaction ≡ false }
    ensures saved { HasCleanDisk (state S.Store conn.new)
        → IsSchemaIf (is_none known.entry) (state S.Store conn.old).now.schema
        → OnOk result (HoldsBook text.now subscriber.now (details_in details.now.entries)
        (state S.Store conn.new).committed) }
    ensures known { HasCleanDisk (state S.Store conn.new) → (held : List ℕ)
        → HoldsText held (state S.Store conn.old).now
        → OnOk result (option_map (λ it. it.now) known.entry ≡ Some held) }
    ensures crash { Survives (state S.Store conn.old) (state S.Store conn.new)
        (MayHold (IsSchemaIf (is_none known.entry) (state S.Store conn.old).now.schema) text.now subscriber.now
        (details_in details.now.entries)) }
{
    let found = read_text(conn)?;
    if !is_same(text_in(&found), known) {
        return Err(NO_BOOK);
    }
    save_rows(conn, known.is_none(), text, subscriber, details)
}

/// Saves what changed of the book that is known to be there, with this text and these accounts, of which this is
/// known. It is refused if another text is there.
pub fn update<S: Alter>(
    conn: &mut Connection<S>,
    known: Option<&[u8]>,
    accounts: &KeyedMap<u128, Balances>,
    details: &KeyedMap<u128, Details>,
    shown: &KeyedMap<u128, Details>,
    text: &[u8],
    change: &Subscriber,
) -> Result<(), Error>
    requires { conn.old.in_transaction ≡ false }
    ensures saved { HasCleanDisk (state S.Store conn.new) → (held : List ℕ) (kept : SubscriberState)
        → HoldsBook held kept (details_in details.now.entries) (state S.Store conn.old).now
        → kept.book ≡ entries_of accounts.now.entries
        → OnOk result (HoldsBook text.now (kept_after kept change.now)
        (renewed change.now.book shown.now.entries details.now.entries) (state S.Store conn.new).committed) }
    ensures known { HasCleanDisk (state S.Store conn.new) → (held : List ℕ)
        → HoldsText held (state S.Store conn.old).now
        → OnOk result (option_map (λ it. it.now) known.entry ≡ Some held) }
    ensures crash { Survives (state S.Store conn.old) (state S.Store conn.new)
        (MayChange (state S.Store conn.old).now (entries_of accounts.now.entries) details.now.entries
        shown.now.entries text.now change.now) }
{
    let held = read_text(conn)?;
    if !is_same(text_in(&held), known) {
        return Err(NO_BOOK);
    }
    save_changes(conn, accounts, details, shown, text, change)
}
