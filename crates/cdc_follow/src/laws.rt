//! Laws of following. They are the postconditions of functions that do nothing.

ghost use Rattle.cdc_follow.specs.Laws.{ChainedFollowersGoOn, ChainedFollowersKeepAPrefix};
ghost use Rattle.cdc_follow.specs.Laws.{FollowedQueuesKeepAPrefix, FollowingFolds, GoingOnIsOnce};
ghost use Rattle.cdc_follow.specs.Laws.{PlainFollowersAreSubscribers, ReceivedOnceIsApplied};
ghost use Rattle.cdc_follow.specs.Widths.{FollowedBytesCanBeSaved, FollowersCanBeSaved, NewFollowersCanBeSaved};
ghost use Rattle.cdc_follow.specs.Widths.{ReadEntriesFit};

/// Does nothing. Following the entries of a stream is a fold of those before the gap at which it stops, or of all, so
/// that the other laws hold of what a follower keeps then.
pub fn following_folds()
    ensures { FollowingFolds }
{}

/// Does nothing. A follower that kept its state after some entries, without a gap, and is handed any of them again, in
/// any order and number, ends where it would have ended without a stop. So a book that is kept makes of a delivery that
/// happens at least once one that counts exactly once.
pub fn going_on_is_once()
    ensures { GoingOnIsOnce }
{}

/// Does nothing. If no entry names its predecessor, a follower keeps what a subscriber keeps that receives only what
/// the binding takes. The last event that it has seen has to be the last one that it has applied, as of a new follower.
pub fn plain_followers_are_subscribers()
    ensures { PlainFollowersAreSubscribers }
{}

/// Does nothing. Whatever entries of a chained queue reach a follower, in whatever order, number and choice: it has
/// applied a prefix of the queue's events that match its binding, in order and each once, and all of them once it has
/// received the end. Nothing is assumed of what carries the queue.
pub fn chained_followers_keep_a_prefix()
    ensures { ChainedFollowersKeepAPrefix }
{}

/// Does nothing. The same holds of a follower that resumes from such a state.
pub fn chained_followers_go_on()
    ensures { ChainedFollowersGoOn }
{}

/// Does nothing. The same holds of a follower that goes through the entries of a stream, wherever it stops: at the end,
/// at a gap, at a line that is no entry, or after an error.
pub fn followed_queues_keep_a_prefix()
    ensures { FollowedQueuesKeepAPrefix }
{}

/// Does nothing. A subscriber that receives events whose timestamps rise, each once and in order, has applied just
/// these: as many as they are, up to the last one's timestamp, with their book.
pub fn received_once_is_applied()
    ensures { ReceivedOnceIsApplied }
{}

/// Does nothing. The numbers of an event that is read from a line have the widths of their fields.
pub fn read_entries_fit()
    ensures { ReadEntriesFit }
{}

/// Does nothing. A follower whose book can be saved and read back is such a one after entries with numbers of these
/// widths.
pub fn followers_can_be_saved()
    ensures { FollowersCanBeSaved }
{}

/// Does nothing. A follower that begins is such a one, if the text of its binding is one line.
pub fn new_followers_can_be_saved()
    ensures { NewFollowersCanBeSaved }
{}

/// Does nothing. A follower that can be saved can be saved wherever it stops in a stream, whatever the bytes are.
pub fn followed_bytes_can_be_saved()
    ensures { FollowedBytesCanBeSaved }
{}
