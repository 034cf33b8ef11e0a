//! The tables of a book, and the statements that make and fill them.

ghost use Rattle.std.specs.Prelude.{◌≡◌, [], ◌∷◌, ◌++◌, ℕ, suc, List, Option, Some, None, true, false, IsTrue, IfOk, OnOk, OnErr};
ghost use Rattle.sqlite.specs.declared.types.Value.TheVariants.{Blob};
ghost use Rattle.sqlite.specs.Held.{state};
ghost use Rattle.sqlite.specs.State.{HasCleanDisk, KeepsCommit, Survives};
ghost use Rattle.cdc_subscriber.specs.SubscriberState.{SubscriberState};
ghost use Rattle.cdc_subscriber.specs.declared.book.BookEntry.{BookEntry as Shown};
ghost use Rattle.cdc_subscriber.specs.Book.{are_distinct, entries_of, ids_of, put};
ghost use Rattle.cdc_book_log.specs.declared.details.Details.{Details as Known};
ghost use Rattle.cdc_book_log.specs.Details.{details_in};
ghost use Rattle.cdc_book_log.specs.Replay.{put_all};
ghost use Rattle.cdc_sqlite_book.specs.Tables.{no_schema, book_only, book_schema, HasTables, IsSchemaIf, book_row, rows_from, HoldsBook, HoldsText, MayHold, place_in, changed as kept_after, renewed, with_details, MayChange};

use crate::accounts::place_for;
use crate::details::{details_for, newest_for};
use cdc_book_log::Details;
use cdc_keys::KeyedMap;
use cdc_subscriber::{Book, BookEntry, Subscriber};
use cdc_types::Balances;
use itoa::Buffer;
use sqlite::{Alter, Connection, Error, ErrorCode, Row, Transaction, params};

/// Makes the table of the book's text.
pub fn make_book<S: Alter>(tx: &mut Transaction<'_, S>) -> Result<usize, Error>
    ensures same_reference { tx.new.conn.ghost_name ≡ tx.old.conn.ghost_name }
    ensures schema { HasCleanDisk (state S.Store tx.new.conn.now)
        → (state S.Store tx.old.conn.now).now.schema ≡ no_schema
        → OnOk result ((state S.Store tx.new.conn.now).now.schema ≡ book_only) }
    ensures empty { HasCleanDisk (state S.Store tx.new.conn.now)
        → (state S.Store tx.old.conn.now).now.schema ≡ no_schema
        → OnOk result ((state S.Store tx.new.conn.now).now.trees 0 ≡ []) }
    ensures kept { HasCleanDisk (state S.Store tx.new.conn.now)
        → KeepsCommit (state S.Store tx.old.conn.now) (state S.Store tx.new.conn.now) }
    ensures survives { Survives (state S.Store tx.old.conn.now) (state S.Store tx.new.conn.now) (λ _. ⊥) }
{
    tx.execute(
        "CREATE TABLE book (id INTEGER PRIMARY KEY, text BLOB NOT NULL, last TEXT NOT NULL, applied TEXT NOT NULL) \
         STRICT",
        &[],
    )
}

/// Makes the table of the accounts.
pub fn make_accounts<S: Alter>(tx: &mut Transaction<'_, S>) -> Result<usize, Error>
    ensures same_reference { tx.new.conn.ghost_name ≡ tx.old.conn.ghost_name }
    ensures schema { HasCleanDisk (state S.Store tx.new.conn.now)
        → (state S.Store tx.old.conn.now).now.schema ≡ book_only
        → OnOk result ((state S.Store tx.new.conn.now).now.schema ≡ book_schema) }
    ensures empty { HasCleanDisk (state S.Store tx.new.conn.now)
        → (state S.Store tx.old.conn.now).now.schema ≡ book_only
        → OnOk result ((state S.Store tx.new.conn.now).now.trees 1 ≡ []) }
    ensures book { HasCleanDisk (state S.Store tx.new.conn.now) → (state S.Store tx.old.conn.now).now.schema ≡ book_only
        → OnOk result ((state S.Store tx.new.conn.now).now.trees 0 ≡ (state S.Store tx.old.conn.now).now.trees 0) }
    ensures kept { HasCleanDisk (state S.Store tx.new.conn.now)
        → KeepsCommit (state S.Store tx.old.conn.now) (state S.Store tx.new.conn.now) }
    ensures survives { Survives (state S.Store tx.old.conn.now) (state S.Store tx.new.conn.now) (λ _. ⊥) }
{
    tx.execute(
        "CREATE TABLE accounts (place INTEGER PRIMARY KEY, id TEXT NOT NULL, debits_pending TEXT NOT NULL, \
         debits_posted TEXT NOT NULL, credits_pending TEXT NOT NULL, credits_posted TEXT NOT NULL, \
         last_timestamp TEXT, ledger INTEGER, code INTEGER, flags INTEGER, user_data_128 TEXT, user_data_64 TEXT, \
         user_data_32 INTEGER) STRICT",
        &[],
    )
}

/// Drops the table of the accounts, of this version or an earlier one.
pub fn drop_accounts<S: Alter>(tx: &mut Transaction<'_, S>) -> Result<usize, Error>
    ensures same_reference { tx.new.conn.ghost_name ≡ tx.old.conn.ghost_name }
    ensures schema { HasCleanDisk (state S.Store tx.new.conn.now)
        → HasTables (state S.Store tx.old.conn.now).now.schema
        → OnOk result ((state S.Store tx.new.conn.now).now.schema ≡ book_only) }
    ensures kept { HasCleanDisk (state S.Store tx.new.conn.now)
        → KeepsCommit (state S.Store tx.old.conn.now) (state S.Store tx.new.conn.now) }
    ensures survives { Survives (state S.Store tx.old.conn.now) (state S.Store tx.new.conn.now) (λ _. ⊥) }
{
    tx.execute("DROP TABLE accounts", &[])
}

/// Drops the table of the book's text.
pub fn drop_book<S: Alter>(tx: &mut Transaction<'_, S>) -> Result<usize, Error>
    ensures same_reference { tx.new.conn.ghost_name ≡ tx.old.conn.ghost_name }
    ensures schema { HasCleanDisk (state S.Store tx.new.conn.now)
        → (state S.Store tx.old.conn.now).now.schema ≡ book_only
        → OnOk result ((state S.Store tx.new.conn.now).now.schema ≡ no_schema) }
    ensures kept { HasCleanDisk (state S.Store tx.new.conn.now)
        → KeepsCommit (state S.Store tx.old.conn.now) (state S.Store tx.new.conn.now) }
    ensures survives { Survives (state S.Store tx.old.conn.now) (state S.Store tx.new.conn.now) (λ _. ⊥) }
{
    tx.execute("DROP TABLE book", &[])
}

/// Inserts the row of the book's text, with the timestamp of the last event applied and the count of those.
pub fn put_text<S: Alter>(
    tx: &mut Transaction<'_, S>,
    text: &[u8],
    last: u64,
    applied: u64,
) -> Result<usize, Error>
    ensures same_reference { tx.new.conn.ghost_name ≡ tx.old.conn.ghost_name }
    ensures schema { HasCleanDisk (state S.Store tx.new.conn.now)
        → (state S.Store tx.old.conn.now).now.schema ≡ book_schema
        → (state S.Store tx.old.conn.now).now.trees 0 ≡ []
        → OnOk result ((state S.Store tx.new.conn.now).now.schema ≡ book_schema) }
    ensures book { HasCleanDisk (state S.Store tx.new.conn.now)
        → (state S.Store tx.old.conn.now).now.schema ≡ book_schema
        → (state S.Store tx.old.conn.now).now.trees 0 ≡ []
        → OnOk result ((state S.Store tx.new.conn.now).now.trees 0 ≡ book_row text.now last applied ∷ []) }
    ensures accounts { HasCleanDisk (state S.Store tx.new.conn.now)
        → (state S.Store tx.old.conn.now).now.schema ≡ book_schema
        → (state S.Store tx.old.conn.now).now.trees 0 ≡ []
        → OnOk result ((state S.Store tx.new.conn.now).now.trees 1 ≡ (state S.Store tx.old.conn.now).now.trees 1) }
    ensures kept { HasCleanDisk (state S.Store tx.new.conn.now)
        → KeepsCommit (state S.Store tx.old.conn.now) (state S.Store tx.new.conn.now) }
    ensures survives { Survives (state S.Store tx.old.conn.now) (state S.Store tx.new.conn.now) (λ _. ⊥) }
{
    let (mut last_digits, mut applied_digits) = (Buffer::new(), Buffer::new());
    tx.execute(
        "INSERT INTO book (text, last, applied) VALUES (?1, ?2, ?3)",
        params![
            text,
            last_digits.format(last),
            applied_digits.format(applied)
        ],
    )
}

/// Inserts the row of an account of which only the balances are known, after those of the accounts that are there.
fn put_bare_account<S: Alter>(
    tx: &mut Transaction<'_, S>,
    entry: &BookEntry,
) -> Result<usize, Error>
    ensures same_reference { tx.new.conn.ghost_name ≡ tx.old.conn.ghost_name }
    ensures schema { HasCleanDisk (state S.Store tx.new.conn.now) → (entries : List Shown) (known : ℕ → Option Known)
        → (state S.Store tx.old.conn.now).now.schema ≡ book_schema
        → (state S.Store tx.old.conn.now).now.trees 1 ≡ rows_from known 1 entries
        → OnOk result ((state S.Store tx.new.conn.now).now.schema ≡ book_schema) }
    ensures book { HasCleanDisk (state S.Store tx.new.conn.now) → (entries : List Shown) (known : ℕ → Option Known)
        → (state S.Store tx.old.conn.now).now.schema ≡ book_schema
        → (state S.Store tx.old.conn.now).now.trees 1 ≡ rows_from known 1 entries
        → OnOk result ((state S.Store tx.new.conn.now).now.trees 0 ≡ (state S.Store tx.old.conn.now).now.trees 0) }
    ensures accounts { HasCleanDisk (state S.Store tx.new.conn.now) → (entries : List Shown)
        (known : ℕ → Option Known) → (state S.Store tx.old.conn.now).now.schema ≡ book_schema
        → (state S.Store tx.old.conn.now).now.trees 1 ≡ rows_from known 1 entries → known entry.now.id ≡ None
        → OnOk result ((state S.Store tx.new.conn.now).now.trees 1 ≡ rows_from known 1 (entries ++ entry.now ∷ [])) }
    ensures kept { HasCleanDisk (state S.Store tx.new.conn.now)
        → KeepsCommit (state S.Store tx.old.conn.now) (state S.Store tx.new.conn.now) }
    ensures survives { Survives (state S.Store tx.old.conn.now) (state S.Store tx.new.conn.now) (λ _. ⊥) }
{
    let (mut id, mut debits_pending, mut debits_posted) = (
        Buffer::new(),
        Buffer::new(),
        Buffer::new(),
    );
    let (mut credits_pending, mut credits_posted) = (Buffer::new(), Buffer::new());
    tx.execute(
        "INSERT INTO accounts (id, debits_pending, debits_posted, credits_pending, credits_posted) \
         VALUES (?1, ?2, ?3, ?4, ?5)",
        params![
            id.format(entry.id),
            debits_pending.format(entry.balances.debits_pending),
            debits_posted.format(entry.balances.debits_posted),
            credits_pending.format(entry.balances.credits_pending),
            credits_posted.format(entry.balances.credits_posted)
        ],
    )
}

/// Inserts the row of an account with its details, after those of the accounts that are there.
fn put_known_account<S: Alter>(
    tx: &mut Transaction<'_, S>,
    entry: &BookEntry,
    details: &Details,
) -> Result<usize, Error>
    ensures same_reference { tx.new.conn.ghost_name ≡ tx.old.conn.ghost_name }
    ensures schema { HasCleanDisk (state S.Store tx.new.conn.now) → (entries : List Shown) (known : ℕ → Option Known)
        → (state S.Store tx.old.conn.now).now.schema ≡ book_schema
        → (state S.Store tx.old.conn.now).now.trees 1 ≡ rows_from known 1 entries
        → OnOk result ((state S.Store tx.new.conn.now).now.schema ≡ book_schema) }
    ensures book { HasCleanDisk (state S.Store tx.new.conn.now) → (entries : List Shown) (known : ℕ → Option Known)
        → (state S.Store tx.old.conn.now).now.schema ≡ book_schema
        → (state S.Store tx.old.conn.now).now.trees 1 ≡ rows_from known 1 entries
        → OnOk result ((state S.Store tx.new.conn.now).now.trees 0 ≡ (state S.Store tx.old.conn.now).now.trees 0) }
    ensures accounts { HasCleanDisk (state S.Store tx.new.conn.now) → (entries : List Shown)
        (known : ℕ → Option Known) → (state S.Store tx.old.conn.now).now.schema ≡ book_schema
        → (state S.Store tx.old.conn.now).now.trees 1 ≡ rows_from known 1 entries → known entry.now.id ≡ Some details.now
        → OnOk result ((state S.Store tx.new.conn.now).now.trees 1 ≡ rows_from known 1 (entries ++ entry.now ∷ [])) }
    ensures kept { HasCleanDisk (state S.Store tx.new.conn.now)
        → KeepsCommit (state S.Store tx.old.conn.now) (state S.Store tx.new.conn.now) }
    ensures survives { Survives (state S.Store tx.old.conn.now) (state S.Store tx.new.conn.now) (λ _. ⊥) }
{
    let (mut id, mut debits_pending, mut debits_posted) = (
        Buffer::new(),
        Buffer::new(),
        Buffer::new(),
    );
    let (mut credits_pending, mut credits_posted) = (Buffer::new(), Buffer::new());
    let (mut last_timestamp, mut user_data_128, mut user_data_64) = (
        Buffer::new(),
        Buffer::new(),
        Buffer::new(),
    );
    let sums = entry.balances;
    tx.execute(
        "INSERT INTO accounts (id, debits_pending, debits_posted, credits_pending, credits_posted, last_timestamp, \
         ledger, code, flags, user_data_128, user_data_64, user_data_32) \
         VALUES (?1, ?2, ?3, ?4, ?5, ?6, ?7, ?8, ?9, ?10, ?11, ?12)",
        params![
            id.format(entry.id),
            debits_pending.format(sums.debits_pending),
            debits_posted.format(sums.debits_posted),
            credits_pending.format(sums.credits_pending),
            credits_posted.format(sums.credits_posted),
            last_timestamp.format(details.last_timestamp),
            details.ledger,
            u32::from(details.code),
            u32::from(details.flags),
            user_data_128.format(details.user_data_128),
            user_data_64.format(details.user_data_64),
            details.user_data_32
        ],
    )
}

/// Inserts the row of an account, after those of the accounts that are there.
fn put_account<S: Alter>(
    tx: &mut Transaction<'_, S>,
    entry: &BookEntry,
    details: Option<Details>,
) -> Result<usize, Error>
    ensures same_reference { tx.new.conn.ghost_name ≡ tx.old.conn.ghost_name }
    ensures schema { HasCleanDisk (state S.Store tx.new.conn.now) → (entries : List Shown) (known : ℕ → Option Known)
        → (state S.Store tx.old.conn.now).now.schema ≡ book_schema
        → (state S.Store tx.old.conn.now).now.trees 1 ≡ rows_from known 1 entries
        → OnOk result ((state S.Store tx.new.conn.now).now.schema ≡ book_schema) }
    ensures book { HasCleanDisk (state S.Store tx.new.conn.now) → (entries : List Shown) (known : ℕ → Option Known)
        → (state S.Store tx.old.conn.now).now.schema ≡ book_schema
        → (state S.Store tx.old.conn.now).now.trees 1 ≡ rows_from known 1 entries
        → OnOk result ((state S.Store tx.new.conn.now).now.trees 0 ≡ (state S.Store tx.old.conn.now).now.trees 0) }
    ensures accounts { HasCleanDisk (state S.Store tx.new.conn.now) → (entries : List Shown)
        (known : ℕ → Option Known) → (state S.Store tx.old.conn.now).now.schema ≡ book_schema
        → (state S.Store tx.old.conn.now).now.trees 1 ≡ rows_from known 1 entries → known entry.now.id ≡ details
        → OnOk result ((state S.Store tx.new.conn.now).now.trees 1 ≡ rows_from known 1 (entries ++ entry.now ∷ [])) }
    ensures kept { HasCleanDisk (state S.Store tx.new.conn.now)
        → KeepsCommit (state S.Store tx.old.conn.now) (state S.Store tx.new.conn.now) }
    ensures survives { Survives (state S.Store tx.old.conn.now) (state S.Store tx.new.conn.now) (λ _. ⊥) }
{
    match details {
        Some(details) => put_known_account(tx, entry, &details),
        None => put_bare_account(tx, entry),
    }
}

/// Inserts a row for each account of a book, in their order, with what is known of it.
pub fn put_accounts<S: Alter>(
    tx: &mut Transaction<'_, S>,
    book: &Book,
    details: &KeyedMap<u128, Details>,
) -> Result<(), Error>
    ensures same_reference { tx.new.conn.ghost_name ≡ tx.old.conn.ghost_name }
    ensures schema { HasCleanDisk (state S.Store tx.new.conn.now)
        → (state S.Store tx.old.conn.now).now.schema ≡ book_schema → (state S.Store tx.old.conn.now).now.trees 1 ≡ []
        → OnOk result ((state S.Store tx.new.conn.now).now.schema ≡ book_schema) }
    ensures book { HasCleanDisk (state S.Store tx.new.conn.now)
        → (state S.Store tx.old.conn.now).now.schema ≡ book_schema → (state S.Store tx.old.conn.now).now.trees 1 ≡ []
        → OnOk result ((state S.Store tx.new.conn.now).now.trees 0 ≡ (state S.Store tx.old.conn.now).now.trees 0) }
    ensures accounts { HasCleanDisk (state S.Store tx.new.conn.now)
        → (state S.Store tx.old.conn.now).now.schema ≡ book_schema → (state S.Store tx.old.conn.now).now.trees 1 ≡ []
        → OnOk result ((state S.Store tx.new.conn.now).now.trees 1
        ≡ rows_from (details_in details.now.entries) 1 book.now) }
    ensures kept { HasCleanDisk (state S.Store tx.new.conn.now)
        → KeepsCommit (state S.Store tx.old.conn.now) (state S.Store tx.new.conn.now) }
    ensures survives { Survives (state S.Store tx.old.conn.now) (state S.Store tx.new.conn.now) (λ _. ⊥) }
{
    'accounts: for place in 0..book.len() {
        let Some((id, balances)) = book.at_place(place) else {
            return Err(Error::SqliteFailure(ErrorCode::Closed));
        };
        put_account(tx, &BookEntry { id, balances }, details_for(details, id))?;
    }
    Ok(())
}

/// Drops the tables, unless the file is new.
pub fn clear<S: Alter>(tx: &mut Transaction<'_, S>, is_new: bool) -> Result<(), Error>
    ensures same_reference { tx.new.conn.ghost_name ≡ tx.old.conn.ghost_name }
    ensures schema { HasCleanDisk (state S.Store tx.new.conn.now)
        → IsSchemaIf is_new (state S.Store tx.old.conn.now).now.schema
        → OnOk result ((state S.Store tx.new.conn.now).now.schema ≡ no_schema) }
    ensures kept { HasCleanDisk (state S.Store tx.new.conn.now)
        → KeepsCommit (state S.Store tx.old.conn.now) (state S.Store tx.new.conn.now) }
    ensures survives { Survives (state S.Store tx.old.conn.now) (state S.Store tx.new.conn.now) (λ _. ⊥) }
{
    if !is_new {
        drop_accounts(tx)?;
        drop_book(tx)?;
    }
    Ok(())
}

/// Makes both tables, and fills them with the text of a book, what its subscriber keeps, and what is known of its
/// accounts.
pub fn fill<S: Alter>(
    tx: &mut Transaction<'_, S>,
    text: &[u8],
    subscriber: &Subscriber,
    details: &KeyedMap<u128, Details>,
) -> Result<(), Error>
    ensures same_reference { tx.new.conn.ghost_name ≡ tx.old.conn.ghost_name }
    ensures holds { HasCleanDisk (state S.Store tx.new.conn.now)
        → (state S.Store tx.old.conn.now).now.schema ≡ no_schema
        → OnOk result (HoldsBook text.now subscriber.now (details_in details.now.entries)
        (state S.Store tx.new.conn.now).now) }
    ensures kept { HasCleanDisk (state S.Store tx.new.conn.now)
        → KeepsCommit (state S.Store tx.old.conn.now) (state S.Store tx.new.conn.now) }
    ensures survives { Survives (state S.Store tx.old.conn.now) (state S.Store tx.new.conn.now) (λ _. ⊥) }
{
    make_book(tx)?;
    make_accounts(tx)?;
    put_text(tx, text, subscriber.last(), subscriber.applied_count())?;
    put_accounts(tx, subscriber.book(), details)
}

/// Saves the text of a book, what its subscriber keeps, and what is known of its accounts, in one transaction. `is_new`:
/// the file has no table yet.
pub fn save_rows<S: Alter>(
    conn: &mut Connection<S>,
    is_new: bool,
    text: &[u8],
    subscriber: &Subscriber,
    details: &KeyedMap<u128, Details>,
) -> Result<(), Error>
    requires { conn.old.in_transaction ≡ false }
    ensures saved { HasCleanDisk (state S.Store conn.new)
        → IsSchemaIf is_new (state S.Store conn.old).now.schema
        → OnOk result (HoldsBook text.now subscriber.now (details_in details.now.entries)
        (state S.Store conn.new).committed) }
    ensures refused { HasCleanDisk (state S.Store conn.new) → IsTrue (state S.Store conn.new).is_open
        → OnErr result ((state S.Store conn.new).committed ≡ (state S.Store conn.old).committed) }
    ensures crash { Survives (state S.Store conn.old) (state S.Store conn.new)
        (MayHold (IsSchemaIf is_new (state S.Store conn.old).now.schema) text.now subscriber.now
        (details_in details.now.entries)) }
{
    let mut tx = conn.transaction();
    clear(&mut tx, is_new)?;
    fill(&mut tx, text, subscriber, details)?;
    tx.commit()
}

/// Replaces the row of the book's text, with the timestamp of the last event applied and the count of those.
pub fn replace_text<S: Alter>(
    tx: &mut Transaction<'_, S>,
    text: &[u8],
    last: u64,
    applied: u64,
) -> Result<usize, Error>
    ensures same_reference { tx.new.conn.ghost_name ≡ tx.old.conn.ghost_name }
    ensures holds { HasCleanDisk (state S.Store tx.new.conn.now) → (held : List ℕ) (kept : SubscriberState)
        (known : ℕ → Option Known) → HoldsBook held kept known (state S.Store tx.old.conn.now).now
        → OnOk result (HoldsBook text.now (record kept { last = last; applied = applied }) known
        (state S.Store tx.new.conn.now).now) }
    ensures kept { HasCleanDisk (state S.Store tx.new.conn.now)
        → KeepsCommit (state S.Store tx.old.conn.now) (state S.Store tx.new.conn.now) }
    ensures survives { Survives (state S.Store tx.old.conn.now) (state S.Store tx.new.conn.now) (λ _. ⊥) }
{
    let (mut last_text, mut applied_text) = (Buffer::new(), Buffer::new());
    tx.execute(
        "INSERT OR REPLACE INTO book (id, text, last, applied) VALUES (1, ?1, ?2, ?3)",
        params![text, last_text.format(last), applied_text.format(applied)],
    )
}

/// Puts the row of an account of which only the balances are known at its place, counted from 1: it replaces the row
/// there, or comes last.
fn replace_bare_account<S: Alter>(
    tx: &mut Transaction<'_, S>,
    place: u32,
    entry: &BookEntry,
) -> Result<usize, Error>
    ensures same_reference { tx.new.conn.ghost_name ≡ tx.old.conn.ghost_name }
    ensures holds { HasCleanDisk (state S.Store tx.new.conn.now) → (held : List ℕ) (kept : SubscriberState)
        (known : ℕ → Option Known) → HoldsBook held kept known (state S.Store tx.old.conn.now).now
        → are_distinct (ids_of kept.book) ≡ true → place ≡ suc (place_in kept.book entry.now.id)
        → OnOk result (HoldsBook held (record kept { book = put entry.now kept.book })
        (with_details entry.now.id None known) (state S.Store tx.new.conn.now).now) }
    ensures kept { HasCleanDisk (state S.Store tx.new.conn.now)
        → KeepsCommit (state S.Store tx.old.conn.now) (state S.Store tx.new.conn.now) }
    ensures survives { Survives (state S.Store tx.old.conn.now) (state S.Store tx.new.conn.now) (λ _. ⊥) }
{
    let (mut id, mut debits_pending, mut debits_posted) = (
        Buffer::new(),
        Buffer::new(),
        Buffer::new(),
    );
    let (mut credits_pending, mut credits_posted) = (Buffer::new(), Buffer::new());
    let balances = entry.balances;
    tx.execute(
        "INSERT OR REPLACE INTO accounts (place, id, debits_pending, debits_posted, credits_pending, credits_posted) \
         VALUES (?1, ?2, ?3, ?4, ?5, ?6)",
        params![
            place,
            id.format(entry.id),
            debits_pending.format(balances.debits_pending),
            debits_posted.format(balances.debits_posted),
            credits_pending.format(balances.credits_pending),
            credits_posted.format(balances.credits_posted)
        ],
    )
}

/// Puts the row of an account with its details at its place, counted from 1: it replaces the row there, or comes last.
fn replace_known_account<S: Alter>(
    tx: &mut Transaction<'_, S>,
    place: u32,
    entry: &BookEntry,
    shown: &Details,
) -> Result<usize, Error>
    ensures same_reference { tx.new.conn.ghost_name ≡ tx.old.conn.ghost_name }
    ensures holds { HasCleanDisk (state S.Store tx.new.conn.now) → (held : List ℕ) (kept : SubscriberState)
        (known : ℕ → Option Known) → HoldsBook held kept known (state S.Store tx.old.conn.now).now
        → are_distinct (ids_of kept.book) ≡ true → place ≡ suc (place_in kept.book entry.now.id)
        → OnOk result (HoldsBook held (record kept { book = put entry.now kept.book })
        (with_details entry.now.id (Some shown.now) known) (state S.Store tx.new.conn.now).now) }
    ensures kept { HasCleanDisk (state S.Store tx.new.conn.now)
        → KeepsCommit (state S.Store tx.old.conn.now) (state S.Store tx.new.conn.now) }
    ensures survives { Survives (state S.Store tx.old.conn.now) (state S.Store tx.new.conn.now) (λ _. ⊥) }
{
    let (mut id, mut debits_pending, mut debits_posted) = (
        Buffer::new(),
        Buffer::new(),
        Buffer::new(),
    );
    let (mut credits_pending, mut credits_posted) = (Buffer::new(), Buffer::new());
    let (mut last_timestamp, mut user_data_128, mut user_data_64) = (
        Buffer::new(),
        Buffer::new(),
        Buffer::new(),
    );
    let sums = entry.balances;
    tx.execute(
        "INSERT OR REPLACE INTO accounts (place, id, debits_pending, debits_posted, credits_pending, credits_posted, \
         last_timestamp, ledger, code, flags, user_data_128, user_data_64, user_data_32) \
         VALUES (?1, ?2, ?3, ?4, ?5, ?6, ?7, ?8, ?9, ?10, ?11, ?12, ?13)",
        params![
            place,
            id.format(entry.id),
            debits_pending.format(sums.debits_pending),
            debits_posted.format(sums.debits_posted),
            credits_pending.format(sums.credits_pending),
            credits_posted.format(sums.credits_posted),
            last_timestamp.format(shown.last_timestamp),
            shown.ledger,
            u32::from(shown.code),
            u32::from(shown.flags),
            user_data_128.format(shown.user_data_128),
            user_data_64.format(shown.user_data_64),
            shown.user_data_32
        ],
    )
}

/// Puts the row of an account at its place, counted from 1: it replaces the row there, or comes last.
fn replace_account<S: Alter>(
    tx: &mut Transaction<'_, S>,
    place: u32,
    entry: &BookEntry,
    details: Option<Details>,
) -> Result<usize, Error>
    ensures same_reference { tx.new.conn.ghost_name ≡ tx.old.conn.ghost_name }
    ensures holds { HasCleanDisk (state S.Store tx.new.conn.now) → (held : List ℕ) (kept : SubscriberState)
        (known : ℕ → Option Known) → HoldsBook held kept known (state S.Store tx.old.conn.now).now
        → are_distinct (ids_of kept.book) ≡ true → place ≡ suc (place_in kept.book entry.now.id)
        → OnOk result (HoldsBook held (record kept { book = put entry.now kept.book })
        (with_details entry.now.id details known) (state S.Store tx.new.conn.now).now) }
    ensures kept { HasCleanDisk (state S.Store tx.new.conn.now)
        → KeepsCommit (state S.Store tx.old.conn.now) (state S.Store tx.new.conn.now) }
    ensures survives { Survives (state S.Store tx.old.conn.now) (state S.Store tx.new.conn.now) (λ _. ⊥) }
{
    match details {
        Some(details) => replace_known_account(tx, place, entry, &details),
        None => replace_bare_account(tx, place, entry),
    }
}

/// The number of the row of the account at an index. It is refused if it doesn't fit.
fn row_number(index: usize) -> Result<u32, Error>
    ensures { IfOk result (λ number. number ≡ suc index) }
{
    match u32::try_from(index) {
        Ok(index) if index < u32::MAX => Ok(index + 1),
        _ => Err(Error::SqliteFailure(ErrorCode::TooBig)),
    }
}

/// Puts the rows of accounts that changed into those of a book that has these accounts, of which this is known: what was
/// shown of an account since, or else what was known before.
pub fn replace_accounts<S: Alter>(
    tx: &mut Transaction<'_, S>,
    accounts: &KeyedMap<u128, Balances>,
    details: &KeyedMap<u128, Details>,
    shown: &KeyedMap<u128, Details>,
    changed: &Book,
) -> Result<(), Error>
    ensures same_reference { tx.new.conn.ghost_name ≡ tx.old.conn.ghost_name }
    ensures holds { HasCleanDisk (state S.Store tx.new.conn.now) → (held : List ℕ) (kept : SubscriberState)
        → HoldsBook held kept (details_in details.now.entries) (state S.Store tx.old.conn.now).now
        → kept.book ≡ entries_of accounts.now.entries
        → OnOk result (HoldsBook held (record kept { book = put_all changed.now kept.book })
        (renewed changed.now shown.now.entries details.now.entries) (state S.Store tx.new.conn.now).now) }
    ensures kept { HasCleanDisk (state S.Store tx.new.conn.now)
        → KeepsCommit (state S.Store tx.old.conn.now) (state S.Store tx.new.conn.now) }
    ensures survives { Survives (state S.Store tx.old.conn.now) (state S.Store tx.new.conn.now) (λ _. ⊥) }
{
    let count = changed.len();
    let mut next = accounts.len();
    'accounts: for at in 0..count {
        let Some((id, balances)) = changed.at_place(at) else {
            return Err(Error::SqliteFailure(ErrorCode::Closed));
        };
        let index = place_for(accounts, id, next);
        let number = row_number(index)?;
        let known = newest_for(shown, details, id);
        replace_account(tx, number, &BookEntry { id, balances }, known)?;
        next = next.max(number as usize);
    }
    Ok(())
}

/// Puts the accounts that changed, and the text of a book and its place, in the rows of a book with these accounts.
pub fn refill<S: Alter>(
    tx: &mut Transaction<'_, S>,
    accounts: &KeyedMap<u128, Balances>,
    details: &KeyedMap<u128, Details>,
    shown: &KeyedMap<u128, Details>,
    text: &[u8],
    change: &Subscriber,
) -> Result<(), Error>
    ensures same_reference { tx.new.conn.ghost_name ≡ tx.old.conn.ghost_name }
    ensures holds { HasCleanDisk (state S.Store tx.new.conn.now) → (held : List ℕ) (kept : SubscriberState)
        → HoldsBook held kept (details_in details.now.entries) (state S.Store tx.old.conn.now).now
        → kept.book ≡ entries_of accounts.now.entries
        → OnOk result (HoldsBook text.now (kept_after kept change.now)
        (renewed change.now.book shown.now.entries details.now.entries) (state S.Store tx.new.conn.now).now) }
    ensures kept { HasCleanDisk (state S.Store tx.new.conn.now)
        → KeepsCommit (state S.Store tx.old.conn.now) (state S.Store tx.new.conn.now) }
    ensures survives { Survives (state S.Store tx.old.conn.now) (state S.Store tx.new.conn.now) (λ _. ⊥) }
{
    replace_accounts(tx, accounts, details, shown, change.book())?;
    replace_text(tx, text, change.last(), change.applied_count())?;
    Ok(())
}

/// Saves what changed of a book, in one transaction: the text of the book without accounts, its place, and the rows of
/// the accounts that changed. `accounts` are those that the tables hold, and `details` what these hold of them.
pub fn save_changes<S: Alter>(
    conn: &mut Connection<S>,
    accounts: &KeyedMap<u128, Balances>,
    details: &KeyedMap<u128, Details>,
    shown: &KeyedMap<u128, Details>,
    text: &[u8],
    change: &Subscriber,
) -> Result<(), Error>
    requires { conn.old.in_transaction ≡ false }
    ensures saved { HasCleanDisk (state S.Store conn.new) → (held : List ℕ) (kept : SubscriberState)
        → HoldsBook held kept (details_in details.now.entries) (state S.Store conn.old).now
        → kept.book ≡ entries_of accounts.now.entries
        → OnOk result (HoldsBook text.now (kept_after kept change.now)
        (renewed change.now.book shown.now.entries details.now.entries) (state S.Store conn.new).committed) }
    ensures refused { HasCleanDisk (state S.Store conn.new) → IsTrue (state S.Store conn.new).is_open
        → OnErr result ((state S.Store conn.new).committed ≡ (state S.Store conn.old).committed) }
    ensures crash { Survives (state S.Store conn.old) (state S.Store conn.new)
        (MayChange (state S.Store conn.old).now (entries_of accounts.now.entries) details.now.entries
        shown.now.entries text.now change.now) }
{
    let mut tx = conn.transaction();
    refill(&mut tx, accounts, details, shown, text, change)?;
    tx.commit()
}

/// The row of the book's text.
pub fn find_text<S: Alter>(conn: &mut Connection<S>) -> Result<Row, Error>
    ensures mode { conn.old.in_transaction ≡ false → conn.new.in_transaction ≡ false }
    ensures found { HasCleanDisk (state S.Store conn.new) → (text : List ℕ)
        → HoldsText text (state S.Store conn.old).now
        → IfOk result (λ row. row ≡ Blob text ∷ []) }
    ensures same { HasCleanDisk (state S.Store conn.new) → HasTables (state S.Store conn.old).now.schema
        → OnOk result ((state S.Store conn.new).now ≡ (state S.Store conn.old).now) }
    ensures survives { Survives (state S.Store conn.old) (state S.Store conn.new)
        (λ _. ¬ HasTables (state S.Store conn.old).now.schema) }
{
    conn.query_row("SELECT text FROM book", &[])
}
