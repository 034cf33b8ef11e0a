//! Where a book is kept: in a log, or in an SQLite file.

ghost use Rattle.std.specs.Prelude.{◌≡◌, ◌++◌, IfOk, IfSome, OnOk, OnErr, Some};
ghost use Rattle.cdc_follow.specs.Following.{FollowState};
ghost use Rattle.cdc_follow.specs.Saved.{book_text};
ghost use Rattle.cdc_book_log.specs.Replay.{with_changes};
ghost use Rattle.cdc_sqlite_book.specs.Tables.{rows_mark};
ghost use Rattle.cdc_app_streams.specs.KeptBooks.{HoldSame, HoldsFollower};

use cdc_book_log::{Details, without_accounts};
use cdc_follow::{BOOK_MARK, Follower, write_book};
use cdc_follow_command::{BookLog, FollowSetup, StreamFollower};
use cdc_keys::{HashKey, KeyedMap};
use cdc_progress::StoreError;
use cdc_sqlite_book::{SqliteBook, Waiting, begin_text};
use cdc_streams::{Keeps, LogFile, LogStore};
use std::alloc::{AllocError, Global};
use std::time::Duration;

/// What the name of a book in an SQLite file begins with.
const SQLITE_PREFIX: &str = "sqlite:";

/// What is printed when it begins to wait.
const WAITS: &str = "relayplum: another program is reading the book; its save waits";

/// A book that is kept as a log in a text file, or in rows of a database.
#[derive(Drop)]
pub enum KeptBook<L, Q> {
    Log(BookLog<L>),
    Rows(Q),
}

/// A book in an SQLite file.
#[derive(Drop)]
pub struct RowBook<'a> {
    book: SqliteBook<'a>,
}

/// A book in a file.
pub type BookFile<'a> = KeptBook<LogFile<'a, HostRuntime>, RowBook<'a>>;

/// Opens the book of this name: the path of a text file, or `sqlite:` and the path of an SQLite file. Returns it with
/// its text, if there is one. `busy`: for how many seconds, at most, a save in SQLite waits for a program that reads
/// the file.
pub fn open_book_file<'a>(
    rt: &'a HostRuntime,
    name: &str,
    key: HashKey,
    busy: u64,
) -> Result<(BookFile<'a>, Option<Vec<u8>>), StoreError> {
    match name.strip_prefix(SQLITE_PREFIX) {
        Some(path) => {
            let waiting = Waiting {
                busy: Duration::from_secs(busy),
                notice: WAITS,
            };
            let (book, text) = SqliteBook::open(rt, path, key, waiting)?;
            Ok((KeptBook::Rows(RowBook { book }), text))
        }
        None => {
            let (file, text) = LogFile::open(rt, name, BOOK_MARK)?;
            Ok((KeptBook::Log(BookLog::new(file)), text))
        }
    }
}

/// Whether the book of this name is kept in an SQLite file.
pub fn is_in_sqlite(name: &str) -> bool {
    name.starts_with(SQLITE_PREFIX)
}

/// The path of the file of the book of this name.
pub fn path_of_book(name: &str) -> &str {
    name.strip_prefix(SQLITE_PREFIX).unwrap_or(name)
}

/// The text of the row of a follower's book, which has no accounts.
fn text_of(alloc: Global, setup: &FollowSetup, follower: &Follower) -> Result<Vec<u8>, AllocError>
    ensures { IfOk result (λ text. text.items
        ≡ rows_mark ++ book_text setup.now.rules.chained setup.now.binding_text.items follower.now) }
{
    let mut text = begin_text(alloc)?;
    let binding = setup.binding_text.as_slice();
    // (a write to a vector fails only if memory runs out)
    match write_book(&mut text, setup.rules.chained, binding, follower) {
        Ok(()) => Ok(text),
        Err(_) => Err(AllocError),
    }
}

impl<'a> RowBook<'a> {
    /// What changed of a follower, if that is all that a save has to write. Rows that another program has written since
    /// the last save have to be replaced, with all others.
    fn change_of<'c>(&self, consumer: &'c StreamFollower) -> Option<&'c Follower>
        ensures { IfSome result (λ change. consumer.now.tracked.changes ≡ Some change.now) }
    {
        self.change_in(consumer.changes())
    }

    /// The change that is kept, if there is one, and if no other program has written to the file since the last save.
    fn change_in<'c>(&self, changes: &'c Option<Follower>) -> Option<&'c Follower>
        ensures { IfSome result (λ change. changes.now ≡ Some change.now) }
    {
        match changes {
            Some(change) => {
                if self.book.is_as_left() {
                    Some(change)
                } else {
                    None
                }
            }
            None => None,
        }
    }

    /// Saves the whole book of a follower, with what events have shown of accounts since the last save.
    fn save_whole(
        &mut self,
        setup: &FollowSetup,
        alloc: Global,
        follower: &Follower,
        shown: &Option<KeyedMap<u128, Details>>,
    ) -> Result<(), StoreError>
        ensures saved { OnOk result (HoldsFollower setup.now self.new follower.now) }
        ensures refused { OnErr result (HoldSame self.old self.new) }
    {
        let place = without_accounts(alloc, follower);
        let text = text_of(alloc, setup, &place)?;
        self.book.save(text, follower.subscriber(), shown)
    }

    /// Saves what changed of a follower, whose book was saved before, with what events have shown of accounts since then.
    fn save_changes(
        &mut self,
        setup: &FollowSetup,
        alloc: Global,
        change: &Follower,
        shown: &KeyedMap<u128, Details>,
    ) -> Result<(), StoreError>
        ensures saved { OnOk result ((past : FollowState) → HoldsFollower setup.now self.old past
            → HoldsFollower setup.now self.new (with_changes past change.now)) }
        ensures refused { OnErr result (HoldSame self.old self.new) }
    {
        let place = without_accounts(alloc, change);
        let text = text_of(alloc, setup, &place)?;
        self.book.save_changes(text, change.subscriber(), shown)
    }
}

impl<'a> Keeps<StreamFollower> for RowBook<'a> {
    ghost use Rattle.cdc_app_streams.specs.KeptBooks.{HasKeptRows};
    ghost use Rattle.cdc_app_streams.specs.Private.Rows.{FitsRows, fits_untracked, fits_later};

    ghost has_kept = { HasKeptRows };

    ghost fits = { FitsRows };

    fn keep(
        &mut self,
        setup: &FollowSetup,
        alloc: Global,
        consumer: &StreamFollower,
    ) -> Result<(), StoreError> {
        match self.change_of(consumer) {
            Some(change) => match consumer.shown() {
                Some(shown) => self.save_changes(setup, alloc, change, shown),
                None => self.save_whole(setup, alloc, consumer.follower(), consumer.shown()),
            },
            None => self.save_whole(setup, alloc, consumer.follower(), consumer.shown()),
        }
    }

    ghost has_kept_none = { λ _ _. tt };

    ghost fits_untracked = { fits_untracked };

    ghost fits_on = { fits_later };
}

impl<L: LogStore, Q: Keeps<StreamFollower>> Keeps<StreamFollower> for KeptBook<L, Q> {
    ghost use Rattle.cdc_streams.proofs.KeepingLemmas.{adds_none};
    ghost use Rattle.cdc_follow_command.specs.Books.{HasLogged, IsTextOf};
    ghost use Rattle.cdc_follow_command.specs.Private.Logged.{
      FitsLog,
      fits_none as fits_log_none,
      goes_on as
          log_goes_on,
    };
    ghost use Rattle.cdc_app_streams.specs.KeptBooks.{FitsIn, HasKeptIn, fits_all, fits_still, none_kept};

    ghost has_kept = { λ setup. HasKeptIn (HasLogged L.texts setup) (Q.has_kept setup) };

    ghost fits = { λ setup it consumer.
        FitsIn (λ log. FitsLog L.texts setup log consumer) (λ rows. Q.fits setup rows consumer) it };

    fn keep(
        &mut self,
        setup: &FollowSetup,
        alloc: Global,
        consumer: &StreamFollower,
    ) -> Result<(), StoreError> {
        match self {
            KeptBook::Log(book) => book.keep(setup, alloc, consumer),
            KeptBook::Rows(book) => book.keep(setup, alloc, consumer),
        }
    }

    ghost has_kept_none = { λ setup it. none_kept (HasLogged L.texts setup) (Q.has_kept setup)
        (λ log. adds_none (IsTextOf setup) (L.texts log.log.store)) (λ rows. Q.has_kept_none setup rows) it };

    ghost fits_untracked = { λ setup it consumer none. fits_all
        (λ log. FitsLog L.texts setup log consumer) (λ rows. Q.fits setup rows consumer)
        (λ log. fits_log_none L.texts setup log consumer none)
        (λ rows. Q.fits_untracked setup rows consumer none) it };

    ghost fits_on = { λ setup it old new moves. fits_still
        (λ log. FitsLog L.texts setup log old) (λ log. FitsLog L.texts setup log new)
        (λ rows. Q.fits setup rows old) (λ rows. Q.fits setup rows new)
        (λ log. log_goes_on L.texts setup log old new moves)
        (λ rows. Q.fits_on setup rows old new moves) it };
}
