//! Loading a book from its rows.

ghost use Rattle.std.specs.Prelude.{◌≡◌, ◌↔◌, ◌≤◌, ◌<◌, ◌^◌, ◌++◌, Bool, ℕ, List, IsSomeAnd, false, pos, decimal, length, Option, Some, None, IfOk, IfErr, IfSome, IsTrue, OnOk, MatchResult};
ghost use Rattle.sqlite.specs.declared.types.Value.TheVariants.{Null, Int, Text as Words};
ghost use Rattle.sqlite.specs.Order.{column};
ghost use Rattle.sqlite.specs.Held.{state};
ghost use Rattle.sqlite.specs.State.{HasCleanDisk, Survives};
ghost use Rattle.cdc_subscriber.specs.declared.book.BookEntry.{BookEntry as Entry};
ghost use Rattle.cdc_book_log.specs.declared.details.Details.{Details as Known};
ghost use Rattle.cdc_follow.specs.Saved.{CanBeSaved, EntryFits, book_text};
ghost use Rattle.cdc_follow.specs.Following.{FollowState};
ghost use Rattle.cdc_sqlite_book.specs.Loading.{AddsRow, AreAccountsOf, DetailsFit, Finds, HasDetails, HasEntry, HasKnown, HasNulls, IsDetailed, IsNone, IsKnown, ReadsAs, IsWholeText, HasStray, account_text, is_failure, with_book};
ghost use Rattle.cdc_sqlite_book.specs.Tables.{HasTables, rows_mark};

use crate::books::NO_BOOK;
use cdc_book_log::Details;
use cdc_follow::{Follower, read_book, write_book};
use cdc_keys::{HashKey, KeyedMap};
use cdc_subscriber::{Book, BookEntry, Subscriber};
use cdc_types::Balances;
use indexmap::IndexMap;
use itoa::Buffer;
use sqlite::types::Value;
use sqlite::{Alter, Connection, Error, ErrorCode, Row, params};
use sqlite_schema::schema::Schema;
use std::alloc::{AllocError, Global};

/// What the text of a book's row begins with, whose accounts are in rows of their own. A version that expects them in the
/// text reads none that begins so.
const ROWS_MARK: &[u8] = b"rows ";

/// The start of the text of a book's row. The text of the book without its accounts comes after it.
pub fn begin_text(alloc: Global) -> Result<Vec<u8>, AllocError>
    ensures { IfOk result (λ text. text.items ≡ rows_mark) }
{
    let mut text = Vec::new(alloc);
    text.extend_from_slice(ROWS_MARK)?;
    Ok(text)
}

/// The number in a column, which is refused unless it is written as a save writes it.
fn number_in(row: &Row, at: usize) -> Result<u128, Error>
    ensures reads { IfOk result (λ number. column row.now at ≡ Words (decimal number)) }
    ensures all { (number : ℕ) → number < 2 ^ 128 → at < length row.now → column row.now at ≡ Words (decimal number)
        → ReadsAs result number }
{
    let text: String = row.get(at)?;
    let Ok(number) = text.as_str().parse() else {
        return Err(NO_BOOK);
    };
    let mut digits = Buffer::new();
    if digits.format(number) != text.as_str() {
        return Err(NO_BOOK);
    }
    Ok(number)
}

/// The number in a column, which is refused unless it fits.
fn number_64_in(row: &Row, at: usize) -> Result<u64, Error>
    ensures reads { IfOk result (λ number. column row.now at ≡ Words (decimal number)) }
    ensures all { (number : ℕ) → number < 2 ^ 64 → at < length row.now → column row.now at ≡ Words (decimal number)
        → ReadsAs result number }
{
    let number = number_in(row, at)?;
    match u64::try_from(number) {
        Ok(number) => Ok(number),
        Err(_) => Err(NO_BOOK),
    }
}

/// The whole number in a column, which is refused unless it fits.
fn number_16_in(row: &Row, at: usize) -> Result<u16, Error>
    ensures reads { IfOk result (λ number. column row.now at ≡ Int (pos number)) }
    ensures all { (number : ℕ) → number < 2 ^ 16 → at < length row.now → column row.now at ≡ Int (pos number)
        → ReadsAs result number }
{
    let number: u32 = row.get(at)?;
    match u16::try_from(number) {
        Ok(number) => Ok(number),
        Err(_) => Err(NO_BOOK),
    }
}

/// The whole number in a column.
fn number_32_in(row: &Row, at: usize) -> Result<u32, Error>
    ensures reads { IfOk result (λ number. column row.now at ≡ Int (pos number)) }
    ensures all { (number : ℕ) → number < 2 ^ 32 → at < length row.now → column row.now at ≡ Int (pos number)
        → ReadsAs result number }
{
    row.get(at)
}

/// The account in a row.
fn entry_in(row: &Row) -> Result<BookEntry, Error>
    ensures reads { IfOk result (HasEntry row.now) }
    ensures all { (entry : Entry) → EntryFits entry → 5 ≤ length row.now → HasEntry row.now entry
        → ReadsAs result entry }
{
    Ok(BookEntry {
        id: number_in(row, 0)?,
        balances: Balances {
            debits_pending: number_in(row, 1)?,
            debits_posted: number_in(row, 2)?,
            credits_pending: number_in(row, 3)?,
            credits_posted: number_in(row, 4)?,
        },
    })
}

/// Where a row has the first of its details, counted from 0.
const FIRST_DETAIL: usize = 5;

/// How many details it has.
const DETAILS: usize = 7;

/// Whether a row has a null in a column.
fn is_null(row: &Row, at: usize) -> Result<bool, Error>
    ensures reads { IfOk result (λ is_null. IsTrue is_null ↔ (column row.now at ≡ Null)) }
    ensures all { at < length row.now → IfErr result (λ e. IsTrue (is_failure e)) }
{
    let value: Value = row.get(at)?;
    Ok(matches!(&value, Value::Null))
}

/// Whether all details of a row are nulls.
fn is_bare(row: &Row) -> Result<bool, Error>
    ensures reads { IfOk result (λ is_bare. IsTrue is_bare ↔ HasNulls row.now) }
    ensures all { 12 ≤ length row.now → IfErr result (λ e. IsTrue (is_failure e)) }
{
    for at in FIRST_DETAIL..FIRST_DETAIL + DETAILS {
        if !is_null(row, at)? {
            return Ok(false);
        }
    }
    Ok(true)
}

/// The details of the account in a row that has some.
fn some_details_in(row: &Row) -> Result<Details, Error>
    ensures reads { IfOk result (HasDetails row.now) }
    ensures all { (details : Known) → DetailsFit details → 12 ≤ length row.now → HasDetails row.now details
        → ReadsAs result details }
{
    Ok(Details {
        last_timestamp: number_64_in(row, 5)?,
        ledger: number_32_in(row, 6)?,
        code: number_16_in(row, 7)?,
        flags: number_16_in(row, 8)?,
        user_data_128: number_in(row, 9)?,
        user_data_64: number_64_in(row, 10)?,
        user_data_32: number_32_in(row, 11)?,
    })
}

/// The details of the account in a row, or `None` if they are nulls.
fn details_in(row: &Row) -> Result<Option<Details>, Error>
    ensures reads { IfOk result (HasKnown row.now) }
    ensures all { (known : Option Known) → IfSome known DetailsFit → 12 ≤ length row.now → HasKnown row.now known
        → ReadsAs result known }
{
    if is_bare(row)? {
        return Ok(None);
    }
    Ok(Some(some_details_in(row)?))
}

/// How many columns the table of the accounts has, with details.
const COLUMNS: usize = 13;

/// Whether the table of the accounts has columns for details, as those of earlier versions don't.
fn has_details(schema: &Schema) -> bool
    ensures { HasTables schema.now → IsDetailed result schema.now }
{
    match schema.tables.as_slice().get(1) {
        Some(table) => table.columns.len() == COLUMNS,
        None => false,
    }
}

/// The statement that reads the row of the account at a place. `detailed`: the table has columns for details.
fn account_statement(detailed: bool) -> &'static str
    ensures { result.now ≡ account_text detailed }
{
    if detailed {
        "SELECT id, debits_pending, debits_posted, credits_pending, credits_posted, last_timestamp, ledger, code, flags, \
         user_data_128, user_data_64, user_data_32 FROM accounts WHERE place = ?1"
    } else {
        "SELECT id, debits_pending, debits_posted, credits_pending, credits_posted FROM accounts WHERE place = ?1"
    }
}

/// Nothing is found, if that is the error of a query; any other error stays.
fn no_row(error: Error) -> Result<Option<Row>, Error>
    ensures { IsNone error None result }
{
    match error {
        Error::QueryReturnedNoRows => Ok(None),
        error => Err(error),
    }
}

/// The same of the search for a row at no place of an account.
fn no_stray(error: Error) -> Result<bool, Error>
    ensures { IsNone error false result }
{
    match error {
        Error::QueryReturnedNoRows => Ok(false),
        error => Err(error),
    }
}

/// The row of the account at a place, counted from 1, without the place; `None` if there is no such row. `detailed`: the
/// table has columns for details.
fn find_account<S: Alter>(
    conn: &mut Connection<S>,
    place: u32,
    detailed: bool,
) -> Result<Option<Row>, Error>
    ensures mode { conn.old.in_transaction ≡ false → conn.new.in_transaction ≡ false }
    ensures found { HasCleanDisk (state S.Store conn.new)
        → IsDetailed detailed (state S.Store conn.old).now.schema
        → MatchResult result (Finds detailed place ((state S.Store conn.old).now.trees 1)) (λ e. IsTrue (is_failure e)) }
    ensures same { HasCleanDisk (state S.Store conn.new)
        → IsDetailed detailed (state S.Store conn.old).now.schema
        → OnOk result ((state S.Store conn.new).now ≡ (state S.Store conn.old).now) }
    ensures survives { Survives (state S.Store conn.old) (state S.Store conn.new)
        (λ _. ¬ IsDetailed detailed (state S.Store conn.old).now.schema) }
{
    match conn.query_row(account_statement(detailed), params![place]) {
        Ok(row) => Ok(Some(row)),
        Err(error) => no_row(error),
    }
}

/// Whether a row isn't at one of the first places, so many. `detailed`: the table has columns for details.
fn has_stray<S: Alter>(conn: &mut Connection<S>, count: u32, detailed: bool) -> Result<bool, Error>
    ensures mode { conn.old.in_transaction ≡ false → conn.new.in_transaction ≡ false }
    ensures found { HasCleanDisk (state S.Store conn.new)
        → IsDetailed detailed (state S.Store conn.old).now.schema
        → MatchResult result (HasStray count ((state S.Store conn.old).now.trees 1)) (λ e. IsTrue (is_failure e)) }
    ensures same { HasCleanDisk (state S.Store conn.new)
        → IsDetailed detailed (state S.Store conn.old).now.schema
        → OnOk result ((state S.Store conn.new).now ≡ (state S.Store conn.old).now) }
    ensures survives { Survives (state S.Store conn.old) (state S.Store conn.new)
        (λ _. ¬ IsDetailed detailed (state S.Store conn.old).now.schema) }
{
    let statement = "SELECT place FROM accounts WHERE place < 1 OR place > ?1";
    let Err(error) = conn.query_row(statement, params![count]) else {
        return Ok(true);
    };
    no_stray(error)
}

/// The accounts in the rows of a book.
#[derive(Drop)]
pub struct Accounts {
    pub book: Book,
    /// What is known of each account besides its balances, by its number.
    pub details: KeyedMap<u128, Details>,
}

impl Accounts {
    /// Adds the account in a row, which is refused if it is there.
    fn add(&mut self, row: &Row, detailed: bool) -> Result<(), Error>
        ensures adds { OnOk result (AddsRow detailed row.now self.old.book self.old.details.entries self.new.book
            self.new.details.entries) }
    {
        let entry = entry_in(row)?;
        if !self.book.push(entry)? {
            return Err(NO_BOOK);
        }
        if !detailed {
            return Ok(());
        }
        if let Some(details) = details_in(row)? {
            self.details.insert(entry.id, details)?;
        }
        Ok(())
    }
}

/// The accounts of a book, in the order of their places. It is refused if a row isn't at one of the places from 1 to the
/// count of the accounts, so if one between two others is missing.
pub fn read_accounts<S: Alter>(
    alloc: Global,
    key: HashKey,
    conn: &mut Connection<S>,
) -> Result<Accounts, Error>
    ensures mode { conn.old.in_transaction ≡ false → conn.new.in_transaction ≡ false }
    ensures read { HasCleanDisk (state S.Store conn.new) → HasTables (state S.Store conn.old).now.schema
        → IfOk result (λ accounts. AreAccountsOf (state S.Store conn.old).now accounts.book accounts.details.entries) }
    ensures same { HasCleanDisk (state S.Store conn.new) → HasTables (state S.Store conn.old).now.schema
        → OnOk result ((state S.Store conn.new).now ≡ (state S.Store conn.old).now) }
    ensures survives { Survives (state S.Store conn.old) (state S.Store conn.new)
        (λ _. ¬ HasTables (state S.Store conn.old).now.schema) }
{
    let detailed = has_details(conn.schema());
    let mut accounts = Accounts {
        book: Book::keyed(alloc, key),
        details: IndexMap::with_hasher(alloc, key),
    };
    'places: for place in 1..u32::MAX {
        let Some(row) = find_account(conn, place, detailed)? else {
            let is_stray = has_stray(conn, place - 1, detailed)?;
            return if is_stray { Err(NO_BOOK) } else { Ok(accounts) };
        };
        accounts.add(&row, detailed)?;
    }
    Err(Error::SqliteFailure(ErrorCode::TooBig))
}

/// A follower at the same place with this book.
fn with_accounts(follower: &Follower, book: Book) -> Follower
    ensures { result ≡ with_book follower.now book }
{
    let kept = follower.subscriber();
    let mut subscriber = Subscriber::resume(book, kept.last(), kept.applied_count(), kept.ended());
    if kept.closed() {
        subscriber.close();
    }
    Follower::new(subscriber, follower.seen())
}

/// What comes after the mark of a text without accounts; `None` if the text doesn't begin with it.
fn after_mark(text: &[u8]) -> Option<&[u8]>
    ensures found { IfSome result (λ rest. text.now ≡ rows_mark ++ rest.now) }
    ensures all { (rest : List ℕ) → text.now ≡ rows_mark ++ rest → IsSomeAnd result (λ found. found.now ≡ rest) }
{
    if text.starts_with(ROWS_MARK) {
        Some(&text[ROWS_MARK.len()..])
    } else {
        None
    }
}

/// The text of the whole book, of the text of its row and of its accounts. The text of a book of version 1.1 is that of
/// the whole book.
pub fn whole_text(
    alloc: Global,
    key: HashKey,
    text: &[u8],
    accounts: Book,
) -> Result<Vec<u8>, Error>
    ensures whole { IfOk result (λ whole. IsWholeText text.now accounts whole.items) }
    ensures all { (chained : Bool) (binding : List ℕ) (bare : FollowState) → CanBeSaved binding bare
        → text.now ≡ rows_mark ++ book_text chained binding bare
        → MatchResult result (λ whole. whole.items ≡ book_text chained binding (with_book bare accounts))
        (λ e. IsTrue (is_failure e)) }
{
    let mut whole = Vec::new(alloc);
    let Some(rest) = after_mark(text) else {
        whole.extend_from_slice(text)?;
        return Ok(whole);
    };
    let Some(saved) = read_book(alloc, key, rest)? else {
        return Err(NO_BOOK);
    };
    let follower = with_accounts(&saved.follower, accounts);
    // (a write to a vector fails only if memory runs out)
    match write_book(
        &mut whole,
        saved.chained,
        saved.binding.as_slice(),
        &follower,
    ) {
        Ok(()) => Ok(whole),
        Err(_) => Err(Error::SqliteFailure(ErrorCode::OutOfMemory)),
    }
}
