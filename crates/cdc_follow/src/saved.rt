//! The text of a saved book, and how it is read back.

ghost use Rattle.std.specs.Prelude.{◌≡◌, ◌↔◌, ◌≤◌, ◌-◌, ℕ, Bool, IsTrue, List};
ghost use Rattle.std.specs.Prelude.{IfOk, IfSome, IsSomeAnd, OnOk};
ghost use Rattle.std.specs.Prelude.{length};
ghost use Rattle.std.specs.List.{flat_map};
ghost use Rattle.std.specs.Io.KnownBytes.{Appends};
ghost use Rattle.cdc_subscriber.specs.Lines.{account_line};
ghost use Rattle.cdc_subscriber.specs.declared.book.BookEntry.{BookEntry as Shown};
ghost use Rattle.cdc_follow.specs.Following.{FollowState};
ghost use Rattle.cdc_follow.specs.Saved.{AreBook, CanBeSaved, IsBook};
ghost use Rattle.cdc_follow.specs.Saved.{book_text, heading};
ghost use Rattle.cdc_follow.specs.SavedParts.{ReadsAccount, ReadsFront};

use crate::follower::Follower;
use cdc_codec::{flag, line, number, number_64, skip, write_flagged, write_named, write_text};
use cdc_keys::HashKey;
use cdc_subscriber::{Book, BookEntry, Subscriber};
use cdc_types::Balances;
use std::alloc::{AllocError, Global};
use std::io;
use std::io::Write;

/// The first bytes of the text of each saved book, whatever its version.
pub const BOOK_MARK: &[u8] = b"book ";

/// A book that was saved.
#[derive(Drop)]
pub struct SavedBook {
    /// Whether the stream is chained.
    pub chained: bool,
    /// The text of the follower's binding.
    pub binding: Vec<u8>,
    /// The follower as it was when its book was saved.
    pub follower: Follower,
}

/// Writes a follower's book, with the text of its binding, which has to be without a line feed for
/// the book to be read back. After an error, a prefix of the book's text may have been written.
pub fn write_book<W: Write>(
    writer: &mut W,
    chained: bool,
    binding: &[u8],
    follower: &Follower,
) -> io::Result<()>
    ensures { OnOk result (Appends (W.contents writer.old) (W.contents writer.new)
        (book_text chained binding.now follower.now)) }
{
    write_heading(writer, chained, binding, follower.seen())?;
    follower.subscriber().print(writer, 1)
}

// Writes the version, whether the stream is chained, the timestamp of the last event seen, and the
// binding.
fn write_heading<W: Write>(
    writer: &mut W,
    chained: bool,
    binding: &[u8],
    seen: u64,
) -> io::Result<()>
    ensures { OnOk result (Appends (W.contents writer.old) (W.contents writer.new)
        (heading chained binding.now seen)) }
{
    write_flagged(writer, "book 1 chained", chained)?;
    write_named(writer, " seen", seen)?;
    write_text(writer, "\nbinding ")?;
    writer.write_all(binding)?;
    write_text(writer, "\n")
}

/// The account of a line, and the bytes after the line. A text that doesn't begin with the line of an account is read
/// as some account, too.
pub fn read_account(text: &[u8]) -> (BookEntry, &[u8])
    ensures reads { ReadsAccount text.now result.0 result.1.now }
    ensures shorter { length result.1.now ≤ length text.now - 7 }
{
    let (id, rest) = number(skip(text, 7));
    let (debits_pending, rest) = number(rest);
    let (debits_posted, rest) = number(rest);
    let (credits_pending, rest) = number(rest);
    let (credits_posted, rest) = number(rest);
    let balances = Balances {
        debits_pending,
        debits_posted,
        credits_pending,
        credits_posted,
    };
    (BookEntry { id, balances }, skip(rest, 1))
}

// The book whose accounts have these lines.
fn read_accounts(alloc: Global, key: HashKey, text: &[u8]) -> Result<Book, AllocError>
    ensures { IfOk result (λ book. (entries : List Shown) → AreBook entries
        → text.now ≡ flat_map account_line entries → book ≡ entries) }
{
    let mut book = Book::keyed(alloc, key);
    let mut rest = text;
    while !rest.is_empty() {
        let (entry, after) = read_account(rest);
        let _added = book.push(entry)?;
        rest = after;
    }
    Ok(book)
}

// What precedes the accounts, and the lines of the accounts.
struct Front<'a> {
    chained: bool,
    seen: u64,
    binding: &'a [u8],
    applied: u64,
    last: u64,
    ended: bool,
    closed: bool,
    accounts: &'a [u8],
}

// The parts of a text. A text that isn't a saved book's is read as some parts, too.
fn read_front(text: &[u8]) -> Front<'_>
    ensures { ReadsFront text.now result }
{
    let (chained, rest) = flag(skip(text, 14));
    let (seen, rest) = number_64(skip(rest, 5));
    let (binding, rest) = line(skip(rest, 9));
    let (_, rest) = number(skip(rest, 10));
    let (applied, rest) = number_64(skip(rest, 8));
    let (last, rest) = number_64(skip(rest, 5));
    let (ended, rest) = flag(skip(rest, 6));
    let (closed, rest) = flag(skip(rest, 7));
    Front {
        chained,
        seen,
        binding,
        applied,
        last,
        ended,
        closed,
        accounts: skip(rest, 1),
    }
}

// A subscriber with this book.
fn resume(book: Book, last: u64, applied: u64, ended: bool, closed: bool) -> Subscriber
    ensures { result ≡ record {
      book = book;
      last = last;
      applied = applied;
      ended = ended;
      closed = closed;
    } }
{
    let mut subscriber = Subscriber::resume(book, last, applied, ended);
    if closed {
        subscriber.close();
    }
    subscriber
}

// Whether a text is the one of a follower.
fn is_text_of(
    alloc: Global,
    text: &[u8],
    chained: bool,
    binding: &[u8],
    follower: &Follower,
) -> Result<bool, AllocError>
    ensures { IfOk result (λ same.
        IsTrue same ↔ (text.now ≡ book_text chained binding.now follower.now)) }
{
    let mut printed = Vec::new(alloc);
    match write_book(&mut printed, chained, binding, follower) {
        Ok(()) => Ok(printed.as_slice() == text),
        Err(_) => Err(AllocError),
    }
}

/// Reads the text of a saved book, which then hashes ids with this key. `None`: it is the text of no book that can be
/// saved. The only error is that memory ran out.
pub fn read_book(alloc: Global, key: HashKey, text: &[u8]) -> Result<Option<SavedBook>, AllocError>
    ensures exact { IfOk result (λ saved. IfSome saved (λ book.
        text.now ≡ book_text book.chained book.binding.items book.follower)) }
    ensures all { (chained : Bool) (binding : List ℕ) (state : FollowState)
        → CanBeSaved binding state → text.now ≡ book_text chained binding state
        → IfOk result (λ saved. IsSomeAnd saved (λ book. IsBook book chained binding state)) }
{
    let Front {
        chained,
        seen,
        binding,
        applied,
        last,
        ended,
        closed,
        accounts,
    } = read_front(text);
    let book = read_accounts(alloc, key, accounts)?;
    let follower = Follower::new(resume(book, last, applied, ended, closed), seen);
    if is_text_of(alloc, text, chained, binding, &follower)? {
        let binding = Vec::from_slice(alloc, binding)?;
        Ok(Some(SavedBook {
            chained,
            binding,
            follower,
        }))
    } else {
        Ok(None)
    }
}
