//! Where a follower is in its stream.

ghost use Rattle.std.specs.Prelude.{◌≡◌};
ghost use Rattle.cdc_book_log.specs.Places.{place_of, state_at};

use cdc_follow::Follower;
use cdc_subscriber::{Book, Subscriber};

/// All that a follower keeps, except its accounts.
#[derive(Clone, Copy)]
pub(crate) struct Place {
    last: u64,
    applied: u64,
    ended: bool,
    closed: bool,
    seen: u64,
}

impl Place {
    /// The place of a follower.
    pub(crate) fn of(follower: &Follower) -> Place
        ensures { result ≡ place_of follower.now }
    {
        let subscriber = follower.subscriber();
        Place {
            last: subscriber.last(),
            applied: subscriber.applied_count(),
            ended: subscriber.ended(),
            closed: subscriber.closed(),
            seen: follower.seen(),
        }
    }

    /// A follower at this place with this book.
    pub(crate) fn follower(self, book: Book) -> Follower
        ensures { result ≡ state_at book self }
    {
        let mut subscriber = Subscriber::resume(book, self.last, self.applied, self.ended);
        if self.closed {
            subscriber.close();
        }
        Follower::new(subscriber, self.seen)
    }
}
