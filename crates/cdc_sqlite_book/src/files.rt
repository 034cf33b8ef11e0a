//! A follower's book in an SQLite file.

ghost use Rattle.std.specs.Prelude.{◌≡◌, ◌++◌, ℕ, false, true, codes, IfOk, OnOk, OnErr, Some, string_bytes};
ghost use Rattle.std.specs.Option.{option_map};
ghost use Rattle.cdc_subscriber.specs.Book.{entries_of, ids_of, is_among};
ghost use Rattle.cdc_book_log.specs.Details.{details_in};
ghost use Rattle.cdc_book_log.specs.Replay.{put_all};
ghost use Rattle.cdc_sqlite_book.specs.Tables.{newest_if, renewed};

use crate::accounts::{accounts_of, put_accounts};
use crate::books::{NO_BOOK, read_text, replace, text_in, update};
use crate::details::{details_of, put_details};
use crate::loading::{Accounts, read_accounts, whole_text};
use crate::new_file::{MAGIC, put_new};
use cdc_book_log::Details;
use cdc_files::{StoreError, names, open_locked, target_of};
use cdc_keys::{HashKey, KeyedMap};
use cdc_subscriber::Subscriber;
use cdc_types::Balances;
use indexmap::IndexMap;
use sqlite::{
    Connection, Error, ErrorCode, File as DiskFile, FileStore, Files as DiskFiles, Options,
};
use sqlite_disk::{Disk, Unknown};
use sqlite_std_file::OpenError;
use std::alloc::{AllocError, Global};
use std::fs::File;
use std::hash::{BuildHasher, RandomState};
use std::io::{ErrorKind, Read};
use std::os::unix::fs::FileExt;
use std::time::Duration;
use std::{fs, io, thread};

/// How long to wait between two tries to open a file that another program is reading, in milliseconds.
const PAUSE: u64 = 10;

/// The length of a page, in bytes.
const PAGE_BYTES: u64 = 4096;

/// How many pages are kept in memory, at least and at most. An opening fills the room for them with zeros.
const LEAST_CACHE: u64 = 16;

const MOST_CACHE: u64 = 2000;

/// The length of the header of an SQLite file, which counts the changes by other programs.
const HEADER_BYTES: usize = 100;

/// Where the header of an SQLite file states its journal.
const JOURNAL_PLACE: usize = 18;

/// What it states for a rollback journal.
const ROLLBACK_JOURNAL: [u8; 2] = [1, 1];

/// The length of the shortest log that holds a page: two headers and 512 bytes.
const LEAST_LOG: usize = 568;

/// The error of a file that is in use.
const BUSY: Error = Error::SqliteFailure(ErrorCode::DatabaseBusy);

/// The error of a read or write that failed.
const IO_FAULT: Error = Error::SqliteFailure(ErrorCode::SystemIoFailure);

/// The error of a file that can't be opened.
const CANNOT_OPEN: Error = Error::SqliteFailure(ErrorCode::CannotOpen);

/// A connection to a file.
type Opened = Connection<FileStore<DiskFile>>;

/// A file and its write-ahead log, which no other program may use meanwhile.
type Held = DiskFiles<DiskFile>;

/// The error of a file that can't be opened or read.
fn read_error(error: io::Error) -> StoreError {
    match error.kind() {
        ErrorKind::OutOfMemory => StoreError::OutOfMemory,
        _ => StoreError::ReadFault,
    }
}

/// The error of a file that can't be made.
fn write_error(error: io::Error) -> StoreError {
    match error.kind() {
        ErrorKind::OutOfMemory => StoreError::OutOfMemory,
        _ => StoreError::WriteFault,
    }
}

/// The error of a book that SQLite can't read.
fn load_error(error: Error) -> StoreError {
    match error {
        Error::SqliteFailure(ErrorCode::OutOfMemory) => StoreError::OutOfMemory,
        Error::SqliteFailure(
            ErrorCode::CannotOpen
            | ErrorCode::DatabaseBusy
            | ErrorCode::SystemIoFailure
            | ErrorCode::DiskFull,
        ) => StoreError::ReadFault,
        _ => StoreError::BadRecord,
    }
}

/// The error of a book that SQLite can't write.
fn save_error(error: Error) -> StoreError {
    match error {
        Error::SqliteFailure(ErrorCode::OutOfMemory) => StoreError::OutOfMemory,
        _ => StoreError::WriteFault,
    }
}

/// The path of the write-ahead log of the file at a path.
fn path_of_log(alloc: Global, path: &str) -> Result<String, AllocError>
    ensures { IfOk result (λ text. string_bytes text ≡ path.now ++ codes "-wal") }
{
    let mut text = String::new(alloc);
    text.push_str(path)?;
    text.push_str("-wal")?;
    Ok(text)
}

/// Removes the log of a file, if it is too short for a page, as after an opening that wrote nothing else.
fn drop_empty_log(rt: &HostRuntime, mut files: Held, log_path: &str) {
    if !files.may_be_used() {
        return;
    }
    match files.log.len() {
        Ok(len) if len < LEAST_LOG => {
            let _ = fs::remove_file(rt, log_path);
        }
        _ => {}
    }
}

/// The error of files that SQLite's locks or their kind keep closed.
fn open_error(error: OpenError) -> Error {
    match error {
        OpenError::OutOfMemory => Error::SqliteFailure(ErrorCode::OutOfMemory),
        OpenError::Busy => BUSY,
        OpenError::Io(error) if error.kind() == ErrorKind::OutOfMemory => {
            Error::SqliteFailure(ErrorCode::OutOfMemory)
        }
        _ => CANNOT_OPEN,
    }
}

/// How many pages of a file of this length are kept in memory: all, within limits.
fn cache_pages(bytes: u64) -> usize {
    (bytes / PAGE_BYTES).clamp(LEAST_CACHE, MOST_CACHE) as usize
}

/// How the file at a path is opened. The port would keep 2,000 pages in memory whatever the file has, and fill them with
/// zeros first, which takes longer than all else that a save of few accounts does.
fn options_for(rt: &HostRuntime, path: &str) -> io::Result<Options> {
    let bytes = fs::metadata(rt, path)?.len();
    let seed = RandomState::new(rt)?.hash_one(&0u8);
    let mut options = Options::new(seed);
    options.cache_pages = cache_pages(bytes);
    Ok(options)
}

/// Opens the file at a path, once. A file that can't be opened is left as it was.
fn open_once(rt: &HostRuntime, path: &str, log_path: &str) -> Result<Opened, Error>
    ensures { IfOk result (λ conn. conn.in_transaction ≡ false) }
{
    let options = options_for(rt, path).or(Err(CANNOT_OPEN))?;
    let files = match sqlite_std_file::open(rt, path, Unknown) {
        Ok(files) => files,
        Err(error) => return Err(open_error(error)),
    };
    match Connection::open_files(rt.alloc(), files, options) {
        Ok(conn) => Ok(conn),
        Err((error, left)) => {
            drop_empty_log(rt, left.into_files(), log_path);
            Err(error)
        }
    }
}

/// How a save waits for a program that is in the middle of reading.
#[derive(Clone, Copy)]
pub struct Waiting<'a> {
    /// How long, at most.
    pub busy: Duration,
    /// What is printed on standard error, as a line, when a wait begins.
    pub notice: &'a str,
}

/// How many tries fit into a time.
fn tries_in(busy: Duration) -> u64 {
    let millis = u64::try_from(busy.as_millis()).unwrap_or(u64::MAX);
    millis / PAUSE
}

/// Opens the file at a path, and waits if another program is reading it.
fn open_waiting(
    rt: &HostRuntime,
    path: &str,
    log_path: &str,
    waiting: Waiting<'_>,
) -> Result<Opened, Error>
    ensures { IfOk result (λ conn. conn.in_transaction ≡ false) }
{
    match open_once(rt, path, log_path) {
        Ok(conn) => return Ok(conn),
        Err(error) if error == BUSY => {}
        Err(error) => return Err(error),
    }
    let _ = eprintln!(rt; "{}", waiting.notice);
    for _ in 0..tries_in(waiting.busy) {
        thread::sleep(rt, Duration::from_millis(PAUSE));
        match open_once(rt, path, log_path) {
            Ok(conn) => return Ok(conn),
            Err(error) if error == BUSY => {}
            Err(error) => return Err(error),
        }
    }
    Err(BUSY)
}

/// Removes the log, which is copied into the file, and states a rollback journal in the file's header. So a program
/// that reads the file holds no lock between two statements.
fn settle(rt: &HostRuntime, mut files: Held, log_path: &str) -> io::Result<()> {
    if !files.may_be_used() {
        return Err(io::Error::from(ErrorKind::Other));
    }
    fs::remove_file(rt, log_path)?;
    files.db.write_at(JOURNAL_PLACE, &ROLLBACK_JOURNAL)?;
    files.db.sync()
}

/// Closes a connection, and gives its files back. After an error the log holds what isn't in the file.
fn close_files(conn: Opened) -> Result<Held, Error> {
    match conn.close_files() {
        Ok(files) => Ok(files),
        Err((error, store)) => {
            drop(store.close());
            Err(error)
        }
    }
}

/// Closes a connection, and leaves its file for others to read.
fn close(rt: &HostRuntime, conn: Opened, log_path: &str) -> Result<(), Error> {
    let files = close_files(conn)?;
    settle(rt, files, log_path).or(Err(IO_FAULT))
}

/// Closes a connection to a file that is no book's, and leaves the file as it was.
fn leave(rt: &HostRuntime, conn: Opened, log_path: &str) {
    drop_empty_log(rt, conn.into_store().close(), log_path);
}

/// Whether a file can be one of SQLite's: it begins like one, or its log isn't empty.
fn can_be_database(rt: &HostRuntime, file: &mut File, log_path: &str) -> io::Result<bool> {
    let mut start = [0u8; MAGIC.len()];
    file.read(&mut start)?;
    if start.as_slice() == MAGIC {
        return Ok(true);
    }
    match fs::metadata(rt, log_path) {
        Ok(log) => Ok(log.len() > 0),
        Err(_) => Ok(false),
    }
}

/// Locks the file at a path. If it is missing, a new one is put in its place.
fn lock_at(rt: &HostRuntime, path: &str) -> Result<File, StoreError> {
    let Some(mut file) = open_locked(rt, path).map_err(read_error)? else {
        return put_new(rt, path).map_err(write_error);
    };
    let log_path = path_of_log(rt.alloc(), path)?;
    if !can_be_database(rt, &mut file, log_path.as_str()).map_err(read_error)? {
        return Err(StoreError::BadRecord);
    }
    Ok(file)
}

/// The header of a file; zeros, as no SQLite file has, if it can't be read.
fn header_of(file: &File) -> [u8; HEADER_BYTES] {
    let mut header = [0u8; HEADER_BYTES];
    match file.read_at(&mut header, 0) {
        Ok(count) if count == HEADER_BYTES => header,
        _ => [0u8; HEADER_BYTES],
    }
}

/// A follower's book in an SQLite file: the table `book` has the text of the book without its accounts, the timestamp of
/// the last event applied and the count of these events; the table `accounts` has a row for each account, with its
/// balances and what the last event that has it shows besides (`Details`), or nulls if that isn't known. Numbers that can
/// exceed 2^32 are decimal text. A save opens the file, writes in one transaction, and closes the file, so an interrupted save leaves
/// the old book or the new one. Between two saves the file has no log and no lock of SQLite's, so others may read it. A
/// save waits for a program that is in the middle of reading.
///
/// A save of the whole book replaces both tables. It can follow any other one, a book of version 1.1, whose text has the
/// accounts, and one whose accounts lack the columns for details. A save by changes writes the rows of the accounts that changed, each found by its number, and the
/// row of the text.
///
/// The file is locked against another `follow` from its opening on. A file that isn't SQLite's, or that has other
/// tables, is refused and left as it was; a log that its own program left beside it may get some zeros at its end,
/// which SQLite ignores. A save is refused if the path no longer names the locked file, or if the file no longer has
/// the text that this store has last loaded or saved. It never makes a file.
///
/// No contract can state what a file holds. `known` is the text that this store has last loaded or saved, `details` what
/// it has loaded or saved of accounts besides their balances, and `accounts` are those that it has last saved; that the file returns them is an assumption of the store's user. If another program
/// has written to the file, its header differs (`is_as_left`); rows that it wrote into `accounts` stay until the next
/// save of the whole book. Nor does a contract cover the two bytes of the header that are written after a close. What a
/// save does to the tables of a connection, and what a crash leaves of them, is proved (`replace`, `update`).
#[derive(Drop)]
pub struct SqliteBook<'a> {
    rt: &'a HostRuntime,
    path: String,
    log_path: String,
    waiting: Waiting<'a>,
    /// The file, locked.
    lock: File,
    /// The file's header, as the last load or save left it.
    header: [u8; HEADER_BYTES],
    known: Option<Vec<u8>>,
    /// The accounts of the last save, in the order of their rows.
    accounts: KeyedMap<u128, Balances>,
    /// What the rows have of accounts besides their balances.
    details: KeyedMap<u128, Details>,
}

/// What was loaded of a book.
#[derive(Drop)]
struct Loaded {
    /// The text of its row, if there is one.
    text: Vec<u8>,
    /// The text of the whole book.
    whole: Vec<u8>,
    /// What the rows have of accounts besides their balances.
    details: KeyedMap<u128, Details>,
}

impl<'a> SqliteBook<'a> {
    /// Opens the book at this path, locks and reads it, and returns it with the text of the whole book, if there is one.
    /// The numbers of its accounts are hashed with this key.
    /// If the file is missing, a new one is written at its name with `.new` appended and put in its place. `BadRecord`:
    /// the file holds no book, or it is empty; `ReadFault`: it can't be opened, or another program holds it;
    /// `WriteFault`: it can't be made.
    pub fn open(
        rt: &'a HostRuntime,
        path: &str,
        key: HashKey,
        waiting: Waiting<'a>,
    ) -> Result<(SqliteBook<'a>, Option<Vec<u8>>), StoreError> {
        let named = target_of(rt, path).map_err(read_error)?;
        let lock = lock_at(rt, named.as_str())?;
        // (the file exists now, so its path is absolute, and SQLite takes it for no other name, such as `:memory:`)
        let path = target_of(rt, named.as_str()).map_err(read_error)?;
        let log_path = path_of_log(rt.alloc(), path.as_str())?;
        let loaded = load_at(rt, path.as_str(), log_path.as_str(), key, waiting);
        let loaded = loaded.map_err(load_error)?;
        let header = header_of(&lock);
        let (known, whole, details) = parts_of(rt.alloc(), key, loaded);
        Ok((
            SqliteBook {
                rt,
                path,
                log_path,
                waiting,
                lock,
                header,
                known,
                accounts: IndexMap::with_hasher(rt.alloc(), key),
                details,
            },
            whole,
        ))
    }

    /// Whether the file is as the last load or save left it, by its header, which other programs change when they write.
    pub fn is_as_left(&self) -> bool {
        header_of(&self.lock).as_slice() == self.header.as_slice()
    }

    /// Saves a whole book: its text without accounts, what its subscriber keeps, and what is known of its accounts. That
    /// is what events have shown since the last load or save, or else what the rows had. If it isn't known what they have
    /// shown, the rows have nulls for it. After an error the file holds the old book or this one.
    pub fn save(
        &mut self,
        text: Vec<u8>,
        subscriber: &Subscriber,
        shown: &Option<KeyedMap<u128, Details>>,
    ) -> Result<(), StoreError>
        ensures saved { OnOk result (option_map (λ it. it.items) self.new.known ≡ Some text.items) }
        ensures accounts { OnOk result (entries_of self.new.accounts.entries ≡ subscriber.now.book) }
        ensures details { OnOk result ((id : ℕ) → is_among id (ids_of subscriber.now.book) ≡ true
            → details_in self.new.details.entries id
            ≡ newest_if (option_map (λ known. known.entries) shown.now) self.old.details.entries id) }
        ensures refused { OnErr result (self.new.known ≡ self.old.known) }
        ensures stay { OnErr result (self.new.accounts.entries ≡ self.old.accounts.entries) }
        ensures unlearned { OnErr result (self.new.details.entries ≡ self.old.details.entries) }
    {
        let alloc = self.rt.alloc();
        let (key, book) = (*self.accounts.hasher(), subscriber.book());
        let accounts = accounts_of(alloc, key, book)?;
        let details = details_of(alloc, key, book, shown, &self.details)?;
        self.put(text.as_slice(), subscriber, &details)
            .map_err(save_error)?;
        self.header = header_of(&self.lock);
        self.known = Some(text);
        self.accounts = accounts;
        self.details = details;
        Ok(())
    }

    /// Saves what changed of the book that was saved last: its text without accounts, the accounts that changed, and what
    /// events have shown of these since. After an error the file holds the old book or the new one.
    pub fn save_changes(
        &mut self,
        text: Vec<u8>,
        change: &Subscriber,
        shown: &KeyedMap<u128, Details>,
    ) -> Result<(), StoreError>
        ensures saved { OnOk result (option_map (λ it. it.items) self.new.known ≡ Some text.items) }
        ensures accounts { OnOk result (entries_of self.new.accounts.entries
            ≡ put_all change.now.book (entries_of self.old.accounts.entries)) }
        ensures details { OnOk result ((id : ℕ) → details_in self.new.details.entries id
            ≡ renewed change.now.book shown.now.entries self.old.details.entries id) }
        ensures refused { OnErr result (self.new.known ≡ self.old.known) }
        ensures stay { OnErr result (self.new.accounts.entries ≡ self.old.accounts.entries) }
        ensures unlearned { OnErr result (self.new.details.entries ≡ self.old.details.entries) }
    {
        let changed = change.book();
        self.accounts.reserve(changed.len())?;
        self.details.reserve(changed.len())?;
        self.put_changes(text.as_slice(), change, shown)
            .map_err(save_error)?;
        self.header = header_of(&self.lock);
        let known = Some(text);
        self.known = known;
        put_accounts(&mut self.accounts, changed);
        put_details(&mut self.details, changed, shown);
        Ok(())
    }

    /// An error unless the path names the locked file.
    fn check_name(&self) -> Result<(), Error> {
        match names(self.rt, self.path.as_str(), &self.lock) {
            Ok(true) => Ok(()),
            Ok(false) | Err(_) => Err(IO_FAULT),
        }
    }

    /// Opens the file for a save.
    fn reopen(&self) -> Result<Opened, Error>
        ensures { IfOk result (λ conn. conn.in_transaction ≡ false) }
    {
        // (a file that isn't there would be made by its opening)
        self.check_name()?;
        open_waiting(
            self.rt,
            self.path.as_str(),
            self.log_path.as_str(),
            self.waiting,
        )
    }

    /// Closes the file after a save. A file that holds another book is left as it was.
    fn end(&self, conn: Opened, saved: Result<(), Error>) -> Result<(), Error> {
        match saved {
            Err(error) if error == NO_BOOK => {
                leave(self.rt, conn, self.log_path.as_str());
                Err(error)
            }
            saved => {
                let closed = close(self.rt, conn, self.log_path.as_str());
                saved.and(closed)
            }
        }
    }

    /// Replaces the book in the file.
    fn put(
        &self,
        text: &[u8],
        subscriber: &Subscriber,
        details: &KeyedMap<u128, Details>,
    ) -> Result<(), Error> {
        let mut conn = self.reopen()?;
        let known = text_in(&self.known);
        let saved = replace(&mut conn, known, text, subscriber, details);
        self.end(conn, saved)
    }

    /// Puts what changed into the book in the file.
    fn put_changes(
        &self,
        text: &[u8],
        change: &Subscriber,
        shown: &KeyedMap<u128, Details>,
    ) -> Result<(), Error> {
        let mut conn = self.reopen()?;
        let saved = update(
            &mut conn,
            text_in(&self.known),
            &self.accounts,
            &self.details,
            shown,
            text,
            change,
        );
        self.end(conn, saved)
    }
}

/// The text of a book's row, that of the whole book, and what is known of its accounts; nothing of a file without a table.
fn parts_of(
    alloc: Global,
    key: HashKey,
    loaded: Option<Loaded>,
) -> (Option<Vec<u8>>, Option<Vec<u8>>, KeyedMap<u128, Details>) {
    match loaded {
        Some(
            Loaded {
                text,
                whole,
                details,
            },
        ) => (Some(text), Some(whole), details),
        None => (None, None, IndexMap::with_hasher(alloc, key)),
    }
}

/// Reads the text of a book's row, and the accounts; `None` if there is no table yet.
fn read_all(
    alloc: Global,
    key: HashKey,
    conn: &mut Opened,
) -> Result<Option<(Vec<u8>, Accounts)>, Error> {
    let Some(text) = read_text(conn)? else {
        return Ok(None);
    };
    let accounts = read_accounts(alloc, key, conn)?;
    Ok(Some((text, accounts)))
}

/// Reads the book in the file at a path; `None` if the file has no table yet.
fn load_at(
    rt: &HostRuntime,
    path: &str,
    log_path: &str,
    key: HashKey,
    waiting: Waiting<'_>,
) -> Result<Option<Loaded>, Error> {
    let mut conn = open_waiting(rt, path, log_path, waiting)?;
    let read = match read_all(rt.alloc(), key, &mut conn) {
        Ok(read) => read,
        Err(error) => {
            leave(rt, conn, log_path);
            return Err(error);
        }
    };
    close(rt, conn, log_path)?;
    let Some((text, accounts)) = read else {
        return Ok(None);
    };
    let Accounts { book, details } = accounts;
    let whole = whole_text(rt.alloc(), key, text.as_slice(), book)?;
    Ok(Some(Loaded {
        text,
        whole,
        details,
    }))
}
