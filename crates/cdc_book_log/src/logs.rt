//! How a log is read back.

ghost use Rattle.std.specs.Prelude.{◌≡◌, ◌↔◌, ◌≤◌, ℕ, Bool, IsTrue, List, length};
ghost use Rattle.std.specs.Prelude.{IfOk, IfSome, IsSomeAnd};
ghost use Rattle.std.specs.List.{AllByRecursion};
ghost use Rattle.cdc_follow.specs.Following.{FollowState};
ghost use Rattle.cdc_follow.specs.Saved.{CanBeSaved, book_text};
ghost use Rattle.cdc_frames.specs.Records.{AreRecords, AreReplayed, IsReplayed};
ghost use Rattle.cdc_book_log.specs.Logs.{CanBeLogged, IsLog, IsLogText, IsRead, log_name};
ghost use Rattle.cdc_book_log.specs.Replay.{with_changes};

use crate::replaying::Replaying;
use cdc_follow::{Follower, SavedBook, read_book};
use cdc_frames::read_frame;
use cdc_keys::HashKey;
use std::alloc::{AllocError, Global};

/// A log that was read.
#[derive(Drop)]
pub struct SavedLog {
    /// Whether the stream is chained.
    pub chained: bool,
    /// The text of the follower's binding.
    pub binding: Vec<u8>,
    /// The follower as it was at the last save.
    pub follower: Follower,
    /// How many records follow the base. The next one has the number after it.
    pub records: u64,
    /// How many bytes the base and the records have. What follows them is torn, and is to be cut off before another
    /// record is written.
    pub whole: usize,
}

/// What follows a base.
#[derive(Clone, Copy)]
struct Tail {
    /// How many records.
    records: u64,
    /// How many bytes after them.
    torn: usize,
}

/// Whether a book is of the same stream and binding as the base.
fn is_of(book: &SavedBook, base: &SavedBook) -> bool
    ensures { IsTrue result
        ↔ ((book.now.chained ≡ base.now.chained) × (book.now.binding.items ≡ base.now.binding.items)) }
{
    book.chained == base.chained && book.binding.as_slice() == base.binding.as_slice()
}

/// Reads what a record contains. `None`: it is no book of the base's stream and binding.
fn read_change(
    alloc: Global,
    key: HashKey,
    text: &[u8],
    base: &SavedBook,
) -> Result<Option<Follower>, AllocError>
    ensures exact { IfOk result (λ read. IfSome read (λ change.
        text.now ≡ book_text base.now.chained base.now.binding.items change)) }
    ensures all { (state : FollowState) → CanBeSaved base.now.binding.items state
        → text.now ≡ book_text base.now.chained base.now.binding.items state
        → IfOk result (λ read. IsSomeAnd read (λ change. change ≡ state)) }
{
    match read_book(alloc, key, text)? {
        Some(saved) if is_of(&saved, base) => Ok(Some(saved.follower)),
        _ => Ok(None),
    }
}

/// Reads the records that follow a base. `None`: a frame with something else is followed by other bytes.
fn read_changes(
    alloc: Global,
    key: HashKey,
    text: &[u8],
    base: &SavedBook,
    replaying: &mut Replaying,
) -> Result<Option<Tail>, AllocError>
    ensures exact { IfOk result (λ read. IfSome read (λ tail.
        IsReplayed log_name (CanBeSaved base.now.binding.items)
        (book_text base.now.chained base.now.binding.items) with_changes text.now
        replaying.old replaying.new tail.records tail.torn)) }
    ensures all { (changes : List FollowState) (torn : List ℕ)
        → AllByRecursion (CanBeSaved base.now.binding.items) changes
        → AreRecords log_name (book_text base.now.chained base.now.binding.items) 1 text.now changes torn
        → IfOk result (λ read. IsSomeAnd read (λ tail.
        AreReplayed with_changes replaying.old replaying.new tail.records tail.torn changes torn)) }
    ensures within { IfOk result (λ read. IfSome read (λ tail. tail.torn ≤ length text.now)) }
{
    let mut rest = text;
    let mut records = 0u64;
    'records: loop {
        let Some(found) = read_frame(alloc, rest, "book", records + 1)? else {
            return Ok(Some(Tail {
                records,
                torn: rest.len(),
            }));
        };
        let Some(change) = read_change(alloc, key, found.content, base)? else {
            let left = found.rest.len();
            if left > 0 {
                return Ok(None);
            }
            return Ok(Some(Tail {
                records,
                torn: rest.len(),
            }));
        };
        replaying.take(&change)?;
        rest = found.rest;
        records += 1;
    }
}

/// Reads the text of a log, in one pass. Its book hashes ids with this key. What follows the last whole record is ignored: a part of a frame, or a last
/// frame that contains no book of the base's stream and binding, such as one of which a crash kept only the two lines.
/// `None`: the text begins with no whole base, or such a frame is followed by other bytes. The only error is that
/// memory ran out.
pub fn read_log(alloc: Global, key: HashKey, text: &[u8]) -> Result<Option<SavedLog>, AllocError>
    ensures exact { IfOk result (λ read. IfSome read (λ log. IsRead text.now log)) }
    ensures all { (chained : Bool) (binding : List ℕ) (base : FollowState) (changes : List FollowState) (torn : List ℕ)
        → CanBeLogged binding base changes → IsLogText text.now chained binding base changes torn
        → IfOk result (λ read. IsSomeAnd read (λ log. IsLog log chained binding base changes)) }
{
    let Some(found) = read_frame(alloc, text, "book", 0)? else {
        return Ok(None);
    };
    let Some(base) = read_book(alloc, key, found.content)? else {
        return Ok(None);
    };
    let mut replaying = Replaying::new(alloc, key, &base.follower)?;
    let Some(tail) = read_changes(alloc, key, found.rest, &base, &mut replaying)? else {
        return Ok(None);
    };
    let follower = replaying.follower(alloc)?;
    let SavedBook {
        chained,
        binding,
        follower: _,
    } = base;
    Ok(Some(SavedLog {
        chained,
        binding,
        follower,
        records: tail.records,
        whole: text.len() - tail.torn,
    }))
}
