//! A follower's book: how it begins, how it is kept, and how it goes on.

ghost use Rattle.std.specs.Prelude.{◌≡◌, ◌⊎◌, ◌↔◌, ℕ, List, IfOk, IfErr, IsTrue, OnErr, OnOk, true};
ghost use Rattle.cdc_follow.specs.Following.{FollowState};
ghost use Rattle.cdc_follow.specs.Laws.{begins};
ghost use Rattle.cdc_follow.specs.Saved.{CanBeSaved, book_text};
ghost use Rattle.cdc_frames.specs.Frames.{frame};
ghost use Rattle.cdc_book_log.specs.Logs.{CanBeLogged, IsLogText, log_name};
ghost use Rattle.cdc_book_log.specs.Replay.{replay};
ghost use Rattle.cdc_streams.specs.Keeping.{AppendsText, ReplacesText};
ghost use Rattle.cdc_bindings.specs.Bindings.{is_of as is_text_of};
ghost use Rattle.cdc_follow_command.specs.Books.{IsAt, IsNoBook, IsRefused, IsRefusedAt, IsResumed, begins_after};
ghost use Rattle.cdc_follow_command.specs.Books as spec;

use crate::followers::{FollowSetup, StreamFollower};
use cdc_bindings::is_of as is_text_of_binding;
use cdc_book_log::{read_log, record_text};
use cdc_files::StoreError;
use cdc_follow::{Follower, read_book};
use cdc_keys::HashKey;
use cdc_match::Binding;
use cdc_streams::{Keeps, Log, LogStore};
use cdc_subscriber::{Book, Subscriber};
use std::alloc::{AllocError, Global};

/// A follower's book, kept as a log: a base with the whole book, and a record for each save after it, with what
/// changed.
#[derive(Drop)]
pub struct BookLog<L> {
    log: Log<L>,
}

impl<L: LogStore> BookLog<L> {
    /// A log in this store, whose next save is of the whole book.
    pub fn new(store: L) -> BookLog<L>
        ensures store { result.log.store ≡ store }
    {
        BookLog {
            log: Log::new(store),
        }
    }

    /// Replaces all by a base with the book of this follower.
    fn save_base(
        &mut self,
        setup: &FollowSetup,
        alloc: Global,
        follower: &Follower,
    ) -> Result<(), StoreError>
        ensures saved { OnOk result (ReplacesText (L.texts self.old.log.store) (L.texts self.new.log.store)
            (frame log_name 0 (book_text setup.now.rules.chained setup.now.binding_text.items follower.now))) }
        ensures records { OnOk result (self.new.log.records ≡ 0) }
        ensures refused { OnErr result (L.texts self.new.log.store ≡ L.texts self.old.log.store) }
    {
        let binding = setup.binding_text.as_slice();
        let text = record_text(alloc, 0, setup.rules.chained, binding, follower)?;
        self.log.save_base(text.as_slice())
    }

    /// Appends the record of this number, with this change.
    fn save_record(
        &mut self,
        setup: &FollowSetup,
        alloc: Global,
        number: u64,
        change: &Follower,
    ) -> Result<(), StoreError>
        ensures saved { OnOk result (AppendsText (L.texts self.old.log.store) (L.texts self.new.log.store)
            (frame log_name number (book_text setup.now.rules.chained setup.now.binding_text.items change.now))) }
        ensures records { OnOk result (self.new.log.records ≡ number) }
        ensures refused { OnErr result (L.texts self.new.log.store ≡ L.texts self.old.log.store) }
    {
        let binding = setup.binding_text.as_slice();
        let text = record_text(alloc, number, setup.rules.chained, binding, change)?;
        self.log.save_record(number, text.as_slice())
    }
}

impl<L: LogStore> Keeps<StreamFollower> for BookLog<L> {
    ghost use Rattle.cdc_streams.proofs.KeepingLemmas.{adds_none};
    ghost use Rattle.cdc_follow_command.specs.Books.{HasLogged, IsTextOf};
    ghost use Rattle.cdc_follow_command.specs.Private.Logged.{FitsLog, fits_none, goes_on};

    ghost has_kept = { HasLogged L.texts };

    ghost fits = { FitsLog L.texts };

    fn keep(
        &mut self,
        setup: &FollowSetup,
        alloc: Global,
        consumer: &StreamFollower,
    ) -> Result<(), StoreError> {
        match (consumer.changes(), self.log.next_record()) {
            (Some(change), Some(number)) => self.save_record(setup, alloc, number, change),
            _ => self.save_base(setup, alloc, consumer.follower()),
        }
    }

    ghost has_kept_none = { λ setup it. adds_none (IsTextOf setup) (L.texts it.log.store) };

    ghost fits_untracked = { fits_none L.texts };

    ghost fits_on = { goes_on L.texts };
}

/// Why a saved book isn't resumed.
#[derive(Clone, Copy, Debug, PartialEq, Eq)]
pub enum ResumeError {
    /// Its store failed, or its text isn't that of such a book.
    Store(StoreError),
    /// Its last event seen has this timestamp, and not the one after which following is to begin.
    Elsewhere(u64),
}

impl From<StoreError> for ResumeError {
    ghost use Rattle.std.specs.Prelude.{◌≡◌};
    ghost use Rattle.cdc_follow_command.specs.declared.books.ResumeError.TheVariants.{Store};

    ghost from_gives = { λ error fault. fault ≡ Store error };

    fn from(error: StoreError) -> ResumeError {
        ResumeError::Store(error)
    }
}

/// A follower that begins, with an empty book, which hashes ids with this key: at the first event, or after the event
/// of this timestamp, as if that one and all before it had been seen.
pub fn begin(alloc: Global, key: HashKey, after: Option<u64>) -> Follower
    ensures begins { result ≡ begins_after after }
    ensures saved { (binding : List ℕ) → CanBeSaved binding begins → CanBeSaved binding result }
{
    let book = Book::keyed(alloc, key);
    Follower::new(Subscriber::resume(book, 0, 0, false), after.unwrap_or(0))
}

/// The follower of a saved book with this text, as `resume` returns it. If following is to begin after the event of
/// some timestamp, that has to be the last event that it has seen.
pub fn resume_at(
    alloc: Global,
    key: HashKey,
    text: &[u8],
    chained: bool,
    binding: &Binding,
    after: Option<u64>,
) -> Result<Follower, ResumeError>
    ensures resumed { IfOk result (λ follower. IsResumed chained binding.now text.now follower
        × IsAt after follower) }
    ensures all { (saved : List ℕ) (base : FollowState) (changes : List FollowState) (torn : List ℕ)
        → is_text_of binding.now saved ≡ true → CanBeLogged saved base changes
        → IsLogText text.now chained saved base changes torn → IsAt after (replay base changes)
        → IfOk result (λ follower. follower ≡ replay base changes) }
    ensures refused { IfErr result (IsRefusedAt chained binding.now text.now after) }
{
    let follower = resume(alloc, key, text, chained, binding)?;
    let seen = follower.seen();
    if is_at(after, seen) {
        Ok(follower)
    } else {
        Err(ResumeError::Elsewhere(seen))
    }
}

/// Whether following may begin after the event of this timestamp, if it is to begin after that of another.
fn is_at(after: Option<u64>, seen: u64) -> bool
    ensures { result ≡ spec.is_at after seen }
{
    match after {
        Some(timestamp) => seen == timestamp,
        None => true,
    }
}

/// The follower of a saved book with this text, which hashes ids with this key: of a log, whose torn end is ignored, or
/// of the book alone, as it was saved before version 1.2. `BadRecord`: the text is neither, or its book is one of a
/// binding that doesn't mean the same as this one, or of a chained stream where this one isn't, or the other way round.
pub fn resume(
    alloc: Global,
    key: HashKey,
    text: &[u8],
    chained: bool,
    binding: &Binding,
) -> Result<Follower, StoreError>
    ensures resumed { IfOk result (IsResumed chained binding.now text.now) }
    ensures all { (saved : List ℕ) (base : FollowState) (changes : List FollowState) (torn : List ℕ)
        → is_text_of binding.now saved ≡ true → CanBeLogged saved base changes
        → IsLogText text.now chained saved base changes torn
        → IfOk result (λ follower. follower ≡ replay base changes) }
    ensures refused { IfErr result (IsRefused chained binding.now text.now) }
{
    match read_log(alloc, key, text)? {
        Some(log) => {
            if is_same(alloc, log.chained, log.binding.as_slice(), chained, binding)? {
                Ok(log.follower)
            } else {
                resume_text(alloc, key, text, chained, binding)
            }
        }
        None => resume_text(alloc, key, text, chained, binding),
    }
}

/// The follower of a book with this text, which is no log.
fn resume_text(
    alloc: Global,
    key: HashKey,
    text: &[u8],
    chained: bool,
    binding: &Binding,
) -> Result<Follower, StoreError>
    ensures resumed { IfOk result (λ follower. (saved : List ℕ) × (is_text_of binding.now saved ≡ true)
        × (text.now ≡ book_text chained saved follower)) }
    ensures refused { IfErr result (λ error. (error ≡ StoreError.OutOfMemory)
        ⊎ ((error ≡ StoreError.BadRecord) × IsNoBook chained binding.now text.now)) }
{
    match read_book(alloc, key, text)? {
        Some(saved) => {
            if is_same(
                alloc,
                saved.chained,
                saved.binding.as_slice(),
                chained,
                binding,
            )? {
                Ok(saved.follower)
            } else {
                Err(StoreError::BadRecord)
            }
        }
        None => Err(StoreError::BadRecord),
    }
}

/// Whether a book is of such a stream, and of a binding that means the same as this one. The one error is that memory
/// ran out.
fn is_same(
    alloc: Global,
    of_chained: bool,
    of_binding: &[u8],
    chained: bool,
    binding: &Binding,
) -> Result<bool, AllocError>
    ensures { IfOk result (λ same. IsTrue same
        ↔ ((of_chained ≡ chained) × (is_text_of binding.now of_binding.now ≡ true))) }
{
    if of_chained == chained {
        is_text_of_binding(alloc, of_binding, binding)
    } else {
        Ok(false)
    }
}
