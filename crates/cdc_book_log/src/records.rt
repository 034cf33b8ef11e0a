//! What a save appends to a log.

ghost use Rattle.std.specs.Prelude.{◌≡◌, IfOk};
ghost use Rattle.cdc_follow.specs.Saved.{book_text};
ghost use Rattle.cdc_frames.specs.Frames.{frame};
ghost use Rattle.cdc_book_log.specs.Logs.{log_name};
ghost use Rattle.cdc_book_log.specs.Replay.{emptied};

use crate::places::Place;
use cdc_follow::{Follower, write_book};
use cdc_frames::write_frame;
use std::alloc::{AllocError, Global};

/// The text of the record of this number, from 1 on. `change` has only the accounts that changed since the record
/// before it, and the place in the stream: what a follower without accounts, at the place of the last save, has made of
/// the entries since. Of a base the number is 0, and `change` is the whole follower. `binding` is the text of the
/// follower's binding, which has to be without a line feed for the log to be read back. The one error is that memory
/// ran out.
pub fn record_text(
    alloc: Global,
    number: u64,
    chained: bool,
    binding: &[u8],
    change: &Follower,
) -> Result<Vec<u8>, AllocError>
    ensures { IfOk result (λ text. text.items
        ≡ frame log_name number (book_text chained binding.now change.now)) }
{
    let mut book = Vec::new(alloc);
    let mut text = Vec::new(alloc);
    // (a write to a vector fails only if memory runs out)
    match write_book(&mut book, chained, binding, change) {
        Ok(()) => match write_frame(&mut text, "book", number, book.as_slice()) {
            Ok(()) => Ok(text),
            Err(_) => Err(AllocError),
        },
        Err(_) => Err(AllocError),
    }
}

/// A follower at the same place whose book is empty. It takes each entry that the other one takes, and is then what
/// changed of it.
pub fn without_accounts(alloc: Global, follower: &Follower) -> Follower
    ensures { result ≡ emptied follower.now }
{
    let subscriber = follower.subscriber();
    Place::of(follower).follower(subscriber.book().emptied(alloc))
}
