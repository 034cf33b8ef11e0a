//! What follows a stream whose saves are printed as SQL.

ghost use Rattle.std.specs.Prelude.{◌≡◌, is_some, IfSome};
ghost use Rattle.cdc_follow.specs.Counts.{counts_of, no_counts};
ghost use Rattle.cdc_follow.specs.Stops.{bytes_followed};
ghost use Rattle.cdc_follow_command.specs.Following.{KeepsAfter, prints_end_of, prints_save_of};
ghost use Rattle.cdc_streams.specs.Saving.{AreSaved, IfStopped, PrintsStream, saves_text};
ghost use Rattle.cdc_sql_book.specs.Following.{begun_of, followed_of};

use crate::recorded::Recorded;
use cdc_follow::{Counts, FollowError, Stop, Turn, follow_line};
use cdc_follow_command::{FollowEnding, FollowForm, FollowSetup, Followed};
use cdc_streams::{Consumer, Keeps, LineReader, Saved, Saver, stream_command};
use std::alloc::{AllocError, Global};
use std::io::{BufRead, Write};

/// What follows a stream whose saves are printed as SQL.
#[derive(Drop)]
pub struct SqlFollower {
    /// The follower, and what it has applied since it was saved.
    recorded: Recorded,
    /// How many lines came to what.
    counts: Counts,
}

impl SqlFollower {
    /// A follower that goes on from this one; no line was counted yet.
    pub fn new(recorded: Recorded) -> SqlFollower
        ensures recorded { result.recorded ≡ recorded }
        ensures counts { result.counts ≡ no_counts }
    {
        SqlFollower {
            recorded,
            counts: Counts::none(),
        }
    }

    /// The follower, and what it has applied since it was saved.
    pub fn recorded(&self) -> &Recorded
        ensures { result.now ≡ self.now.recorded }
    {
        &self.recorded
    }

    /// How many lines of the stream that is followed came to what.
    pub fn counts(&self) -> Counts
        ensures { result ≡ self.now.counts }
    {
        self.counts
    }
}

impl Saved for SqlFollower {
    ghost use Rattle.cdc_sql_book.specs.Following.{IsNew, followed_of};
    ghost use Rattle.cdc_sql_book.specs.Recording.{IsRecordedSince, RecordsOn};

    type Setup = FollowSetup;

    type State = Followed;

    ghost state = { followed_of };

    ghost since = { λ past now. IsRecordedSince past.follower now.recorded };

    ghost is_untracked = { λ now. IsNew now.recorded };

    ghost moves = { λ old new. RecordsOn old.recorded new.recorded };

    fn begin_changes(&mut self, _alloc: Global) {
        self.recorded.begin(true);
    }

    fn forget_changes(&mut self) {
        self.recorded.begin(false);
    }
}

impl<F: FollowForm> Consumer<F> for SqlFollower {
    ghost use Rattle.cdc_follow_command.specs.Private.Followed.{HasFollowed, followed_none, keeps_after};
    ghost use Rattle.cdc_follow_command.specs.Following.{KeepsAfter, StopsAt, prints_end_of, prints_save_of};

    type Stop = Stop;

    ghost has_taken = { HasFollowed };

    ghost stands = { KeepsAfter };

    ghost stops = { StopsAt };

    ghost prints_saved = { prints_save_of F.prints_save };

    ghost prints_end = { prints_end_of F.prints_end };

    fn take_line<B: BufRead>(
        &mut self,
        setup: &FollowSetup,
        alloc: Global,
        reader: &mut B,
        line: &mut Vec<u8>,
        number: u64,
    ) -> Result<Option<Stop>, FollowError> {
        let turn = follow_line(
            alloc,
            reader,
            line,
            number,
            &setup.binding,
            setup.rules,
            &mut self.recorded,
        )?;
        match turn {
            Turn::GoesOn(taken) => {
                self.counts.count(&taken);
                Ok(None)
            }
            Turn::Stops(stop) => Ok(Some(stop)),
        }
    }

    fn saved_text(
        &self,
        form: &F,
        _setup: &FollowSetup,
        alloc: Global,
    ) -> Result<Vec<u8>, AllocError> {
        form.save(alloc, self.counts, self.recorded.follower().seen())
    }

    fn end_text(
        &self,
        form: &F,
        _setup: &FollowSetup,
        alloc: Global,
        stop: Stop,
    ) -> Result<Vec<u8>, AllocError> {
        form.end(alloc, self.counts, self.recorded.follower(), stop)
    }

    ghost begins = { followed_none };

    ghost stands_for_it = { keeps_after };
}

/// Follows the lines of a reader, numbered from 1, as `follow_command` of `cdc_follow_command` does. What each save has
/// is what was applied since the one before.
pub fn sql_command<F: FollowForm, B: LineReader, W: Write, K: Keeps<SqlFollower>>(
    form: &F,
    alloc: Global,
    reader: &mut B,
    writer: &mut W,
    saver: &mut Saver<K>,
    setup: &FollowSetup,
    followed: &mut SqlFollower,
) -> FollowEnding
    ensures stops { IfStopped result (λ stop. IfSome (B.remaining reader.old) (λ bytes.
        bytes_followed setup.now.binding setup.now.rules followed.old.recorded.follower bytes
        ≡ record { state = followed.new.recorded.follower; stop = stop })) }
    ensures counts { IfStopped result (λ _. IfSome (B.remaining reader.old) (λ bytes. followed.new.counts
        ≡ counts_of setup.now.binding setup.now.rules followed.old.recorded.follower bytes)) }
    ensures printed { PrintsStream
        (AreSaved (KeepsAfter setup.now (begun_of followed.old)) (K.has_kept setup.now) (B.remaining reader.old)
        saver.old.store saver.new.store)
        (saves_text (prints_save_of F.prints_save setup.now) (is_some saver.old.store))
        (prints_end_of F.prints_end setup.now) F.prints_failure
        (W.contents writer.old) (W.contents writer.new) (followed_of followed.new) result }
{
    followed.counts = Counts::none();
    stream_command(form, alloc, reader, writer, saver, setup, followed)
}
