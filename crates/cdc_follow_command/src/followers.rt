//! The command `follow`: follows a stream up to its end, and saves and prints its book.

ghost use Rattle.std.specs.Prelude.{◌≡◌, [], None, Some, is_some, IfOk, IfSome, OnErr, OnOk};
ghost use Rattle.std.specs.Option.{option_map};
ghost use Rattle.cdc_book_log.specs.Tracking.{GoesOn};
ghost use Rattle.cdc_follow.specs.Counts.{counts_of, no_counts};
ghost use Rattle.cdc_follow.specs.Following.{next_follow, outcome_of};
ghost use Rattle.cdc_follow.specs.Stops.{bytes_followed};
ghost use Rattle.cdc_follow_command.specs.Following.{KeepsAfter, begun_of, counts_after, followed_of};
ghost use Rattle.cdc_follow_command.specs.Following.{prints_end_of, prints_save_of};
ghost use Rattle.cdc_streams.specs.Saving.{AreSaved, IfStopped, PrintsStream, saves_text};

use crate::endings::FollowEnding;
use crate::forms::FollowForm;
use cdc_book_log::{Details, Tracked};
use cdc_follow::{
    Counts, Entry, FollowError, Follower, Following, Rules, Stop, Taken, TakesEntries, Turn,
    follow_line,
};
use cdc_keys::{HashKey, KeyedMap};
use cdc_match::Binding;
use cdc_streams::{Consumer, Keeps, LineReader, Saved, Saver, stream_command};
use std::alloc::{AllocError, Global};
use std::io::{BufRead, Write};

/// By what a stream is followed.
#[derive(Drop)]
pub struct FollowSetup {
    /// The binding that takes the events.
    pub binding: Binding,
    /// Whether the stream is chained, and whether gaps are skipped.
    pub rules: Rules,
    /// The text of the binding, which the saved book states.
    pub binding_text: Vec<u8>,
}

/// What following a stream has come to. Contracts alone speak of it; no value of it is made.
#[derive(Drop)]
pub struct Followed {
    /// The follower, with its book.
    pub follower: Follower,
    /// How many lines came to what.
    pub counts: Counts,
}

/// What follows a stream.
#[derive(Drop)]
pub struct StreamFollower {
    /// The follower, with its book, and what changed of it since it was saved.
    tracked: Tracked,
    /// How many lines came to what.
    counts: Counts,
}

impl StreamFollower {
    /// A follower that goes on from this one; no line was counted yet.
    pub fn new(follower: Follower) -> StreamFollower
        ensures follower { result.tracked.follower ≡ follower }
        ensures changes { result.tracked.changes ≡ None }
        ensures counts { result.counts ≡ no_counts }
    {
        StreamFollower {
            tracked: Tracked::new(follower),
            counts: Counts::none(),
        }
    }

    /// The follower, with its book.
    pub fn follower(&self) -> &Follower
        ensures { result.now ≡ self.now.tracked.follower }
    {
        self.tracked.follower()
    }

    /// Begins to keep what events show of accounts besides their balances, by the accounts' numbers, which are hashed with
    /// this key.
    pub fn keep_details(&mut self, alloc: Global, key: HashKey)
        ensures { self.new ≡ record self.old { tracked = record self.old.tracked { shown = Some [] } } }
    {
        self.tracked.keep_details(alloc, key);
    }

    /// What the events that were applied since the save have shown of their accounts, if that is kept.
    pub fn shown(&self) -> &Option<KeyedMap<u128, Details>>
        ensures { option_map (λ known. known.entries) result.now ≡ self.now.tracked.shown }
    {
        self.tracked.shown()
    }

    /// What changed of the follower since it was saved, if that is kept.
    pub fn changes(&self) -> &Option<Follower>
        ensures { result.now ≡ self.now.tracked.changes }
    {
        self.tracked.changes()
    }

    /// How many lines of the stream that is followed came to what.
    pub fn counts(&self) -> Counts
        ensures { result ≡ self.now.counts }
    {
        self.counts
    }

    /// Takes an entry that comes from elsewhere than a line, and counts it as its line, unless it is a gap at which
    /// following stops. The one error is that memory ran out, and then nothing changes.
    pub fn take_entry(
        &mut self,
        setup: &FollowSetup,
        entry: &Entry,
    ) -> Result<Following, AllocError>
        ensures answer { IfOk result (λ answer. answer
            ≡ outcome_of setup.now.binding self.old.tracked.follower entry.now) }
        ensures state { OnOk result (self.new.tracked.follower
            ≡ next_follow setup.now.binding self.old.tracked.follower entry.now) }
        ensures counts { IfOk result (λ answer. self.new.counts
            ≡ counts_after setup.now.rules answer entry.now self.old.counts) }
        ensures moves { OnOk result (GoesOn self.old.tracked self.new.tracked) }
        ensures err { OnErr result (self.new ≡ self.old) }
    {
        let following = self.tracked.take_entry(&setup.binding, entry)?;
        match following {
            Following::Gap if !setup.rules.skips_gaps => {}
            _ => self.counts.count(&Taken::Entry(*entry, following)),
        }
        Ok(following)
    }
}

impl Saved for StreamFollower {
    ghost use Rattle.cdc_follow_command.specs.Following.{followed_of};
    ghost use Rattle.cdc_book_log.specs.Tracking.{GoesOn, IsSince};
    ghost use Rattle.std.specs.Prelude.{◌≡◌, None};

    type Setup = FollowSetup;

    type State = Followed;

    ghost state = { followed_of };

    ghost since = { λ past now. IsSince past.follower now.tracked };

    ghost is_untracked = { λ now. now.tracked.changes ≡ None };

    ghost moves = { λ old new. GoesOn old.tracked new.tracked };

    fn begin_changes(&mut self, alloc: Global) {
        self.tracked.begin_changes(alloc);
    }

    fn forget_changes(&mut self) {
        self.tracked.forget_changes();
    }
}

impl<F: FollowForm> Consumer<F> for StreamFollower {
    ghost use Rattle.cdc_follow_command.specs.Private.Followed.{HasFollowed, followed_none, keeps_after};
    ghost use Rattle.cdc_follow_command.specs.Following.{KeepsAfter, StopsAt, prints_end_of, prints_save_of};

    type Stop = Stop;

    ghost has_taken = { HasFollowed };

    ghost stands = { KeepsAfter };

    ghost stops = { StopsAt };

    ghost prints_saved = { prints_save_of F.prints_save };

    ghost prints_end = { prints_end_of F.prints_end };

    fn take_line<B: BufRead>(
        &mut self,
        setup: &FollowSetup,
        alloc: Global,
        reader: &mut B,
        line: &mut Vec<u8>,
        number: u64,
    ) -> Result<Option<Stop>, FollowError> {
        let turn = follow_line(
            alloc,
            reader,
            line,
            number,
            &setup.binding,
            setup.rules,
            &mut self.tracked,
        )?;
        match turn {
            Turn::GoesOn(taken) => {
                self.counts.count(&taken);
                Ok(None)
            }
            Turn::Stops(stop) => Ok(Some(stop)),
        }
    }

    fn saved_text(
        &self,
        form: &F,
        _setup: &FollowSetup,
        alloc: Global,
    ) -> Result<Vec<u8>, AllocError> {
        form.save(alloc, self.counts, self.follower().seen())
    }

    fn end_text(
        &self,
        form: &F,
        _setup: &FollowSetup,
        alloc: Global,
        stop: Stop,
    ) -> Result<Vec<u8>, AllocError> {
        form.end(alloc, self.counts, self.follower(), stop)
    }

    ghost begins = { followed_none };

    ghost stands_for_it = { keeps_after };
}

/// Follows the lines of a reader, numbered from 1. It saves the book after every so many lines, each time that no whole
/// line is waiting, and at the end. It prints each save once the store holds its book, with the counts of the lines so
/// far; and at the end the book, why following stopped, and the counts, or the fault of a command that failed. Nothing
/// is written after a write that failed. Lines that were followed before are not counted.
pub fn follow_command<F: FollowForm, B: LineReader, W: Write, K: Keeps<StreamFollower>>(
    form: &F,
    alloc: Global,
    reader: &mut B,
    writer: &mut W,
    saver: &mut Saver<K>,
    setup: &FollowSetup,
    followed: &mut StreamFollower,
) -> FollowEnding
    ensures stops { IfStopped result (λ stop. IfSome (B.remaining reader.old) (λ bytes.
        bytes_followed setup.now.binding setup.now.rules followed.old.tracked.follower bytes
        ≡ record { state = followed.new.tracked.follower; stop = stop })) }
    ensures counts { IfStopped result (λ _. IfSome (B.remaining reader.old) (λ bytes. followed.new.counts
        ≡ counts_of setup.now.binding setup.now.rules followed.old.tracked.follower bytes)) }
    ensures printed { PrintsStream
        (AreSaved (KeepsAfter setup.now (begun_of followed.old)) (K.has_kept setup.now) (B.remaining reader.old)
        saver.old.store saver.new.store)
        (saves_text (prints_save_of F.prints_save setup.now) (is_some saver.old.store))
        (prints_end_of F.prints_end setup.now) F.prints_failure
        (W.contents writer.old) (W.contents writer.new) (followed_of followed.new) result }
{
    followed.counts = Counts::none();
    stream_command(form, alloc, reader, writer, saver, setup, followed)
}
