//! The command that follows a stream by checking it, up to its end, and saves and prints what that comes to.

ghost use Rattle.std.specs.Prelude.{◌≡◌, ◌++◌, ◌∷◌, [], None, is_some, IfSome, IsSomeAnd, IsTrue};
ghost use Rattle.cdc_checked_command.specs.Following.{CountsLines, FollowsTo, StandsAfter, begun_of, prints_end_of};
ghost use Rattle.cdc_checked_command.specs.Following.{prints_save_of};
ghost use Rattle.cdc_streams.specs.Saving.{AreSaved, IfStopped, PrintsStream, saves_text};

use crate::forms::CheckForm;
use cdc_checked_follow::{CheckStop, CheckTurn, CheckedFollower, check_line};
use cdc_follow::{Counts, FollowError};
use cdc_match::Binding;
use cdc_streams::{Consumer, Keeps, LineReader, Saved, Saver, StreamEnding, stream_command};
use std::alloc::{AllocError, Global};
use std::io::{BufRead, Write};

/// How a stream is followed.
#[derive(Clone, Copy)]
pub struct CheckSetup {
    /// Whether refused events are skipped.
    pub skips_gaps: bool,
}

/// A follower, the binding by which it follows, and what came of the lines.
#[derive(Drop)]
pub struct BoundFollower {
    /// The binding whose events the book has.
    pub binding: Binding,
    /// The text of the binding, which the saved state states.
    pub binding_text: Vec<u8>,
    /// The follower, with its checker and its book.
    pub follower: CheckedFollower,
    /// How many lines of the stream that is followed came to what.
    pub counts: Counts,
}

/// What follows a stream by checking it.
#[derive(Drop)]
pub struct StreamChecker {
    /// The follower and its binding.
    bound: BoundFollower,
    /// The lines that were followed since it was saved, each with its line feed; `None` if they aren't kept, so the
    /// whole state has to be saved.
    lines: Option<Vec<u8>>,
}

/// How many bytes of lines are kept, at most.
const MOST_BYTES: usize = 1 << 24;

/// Adds a line, and its line feed. `false`: it isn't added as a whole, since there are too many bytes, or memory ran
/// out.
fn add_line(lines: &mut Vec<u8>, line: &[u8]) -> bool
    ensures { IsTrue result → lines.new.items ≡ lines.old.items ++ (line.now ++ 10 ∷ []) }
{
    if line.len() >= MOST_BYTES.saturating_sub(lines.len()) {
        return false;
    }
    lines.extend_from_slice(line).is_ok() && lines.push(b'\n').is_ok()
}

impl StreamChecker {
    /// A checker that goes on from this follower. No lines are kept.
    pub fn new(bound: BoundFollower) -> StreamChecker
        ensures bound { result.bound ≡ bound }
        ensures lines { result.lines ≡ None }
    {
        StreamChecker { bound, lines: None }
    }

    /// The follower and its binding.
    pub fn bound(&self) -> &BoundFollower
        ensures { result.now ≡ self.now.bound }
    {
        &self.bound
    }

    /// The lines that were followed since it was saved, if they are kept.
    pub(crate) fn lines(&self) -> &Option<Vec<u8>>
        ensures { result.now ≡ self.now.lines }
    {
        &self.lines
    }

    /// Keeps a line that was followed, if the others are kept. If that isn't possible, they aren't kept any longer.
    fn keep_line(&mut self, line: &[u8])
        ensures bound { self.new.bound ≡ self.old.bound }
        ensures lines { IfSome self.new.lines (λ new. IsSomeAnd self.old.lines (λ old.
            new.items ≡ old.items ++ (line.now ++ 10 ∷ []))) }
    {
        let is_kept = match &mut self.lines {
            Some(lines) => add_line(lines, line),
            None => true,
        };
        if !is_kept {
            self.lines = None;
        }
    }
}

impl Saved for StreamChecker {
    ghost use Rattle.std.specs.Prelude.{◌≡◌, None};
    ghost use Rattle.cdc_checked_command.specs.Following.{bound_of};
    ghost use Rattle.cdc_checked_command.specs.Private.Kept.{GoesOn, IsSince};

    type Setup = CheckSetup;

    type State = BoundFollower;

    ghost state = { bound_of };

    ghost since = { IsSince };

    ghost is_untracked = { λ now. now.lines ≡ None };

    ghost moves = { GoesOn };

    fn begin_changes(&mut self, alloc: Global) {
        self.lines = Some(Vec::new(alloc));
    }

    fn forget_changes(&mut self) {
        self.lines = None;
    }
}

impl<F: CheckForm> Consumer<F> for StreamChecker {
    ghost use Rattle.cdc_checked_command.specs.Private.Checked.{HasChecked, checked_none, stands_after};
    ghost use Rattle.cdc_checked_command.specs.Following.{StandsAfter, StopsAt, prints_end_of, prints_save_of};

    type Stop = CheckStop;

    ghost has_taken = { HasChecked };

    ghost stands = { StandsAfter };

    ghost stops = { StopsAt };

    ghost prints_saved = { prints_save_of F.prints_save };

    ghost prints_end = { prints_end_of F.prints_end };

    fn take_line<B: BufRead>(
        &mut self,
        setup: &CheckSetup,
        alloc: Global,
        reader: &mut B,
        line: &mut Vec<u8>,
        number: u64,
    ) -> Result<Option<CheckStop>, FollowError> {
        let turn = check_line(
            alloc,
            reader,
            line,
            number,
            &self.bound.binding,
            setup.skips_gaps,
            &mut self.bound.follower,
        )?;
        match turn {
            CheckTurn::GoesOn(taken, _) => {
                self.bound.counts.count(&taken);
                self.keep_line(line.as_slice());
                Ok(None)
            }
            CheckTurn::Stops(stop) => Ok(Some(stop)),
        }
    }

    fn saved_text(
        &self,
        form: &F,
        _setup: &CheckSetup,
        alloc: Global,
    ) -> Result<Vec<u8>, AllocError> {
        form.save(alloc, self.bound.counts, self.bound.follower.last())
    }

    fn end_text(
        &self,
        form: &F,
        _setup: &CheckSetup,
        alloc: Global,
        stop: CheckStop,
    ) -> Result<Vec<u8>, AllocError> {
        form.end(alloc, self.bound.counts, &self.bound.follower, stop)
    }

    ghost begins = { checked_none };

    ghost stands_for_it = { stands_after };
}

/// Follows the lines of a reader, numbered from 1, by checking them. It saves the state after every so many lines, each
/// time that no whole line is waiting, and at the end. It prints each save once the store holds its state, with the
/// counts of the lines so far; and at the end what following came to, why it stopped, and the counts, or the fault of a
/// command that failed. Nothing is written after a write that failed. Lines that were followed before are not counted.
pub fn check_command<F: CheckForm, B: LineReader, W: Write, K: Keeps<StreamChecker>>(
    form: &F,
    alloc: Global,
    reader: &mut B,
    writer: &mut W,
    saver: &mut Saver<K>,
    setup: &CheckSetup,
    checker: &mut StreamChecker,
) -> StreamEnding<CheckStop>
    ensures stops { IfStopped result (λ stop. IfSome (B.remaining reader.old) (λ bytes.
        FollowsTo setup.now checker.old.bound bytes stop checker.new.bound)) }
    ensures counts { IfStopped result (λ _. IfSome (B.remaining reader.old) (λ bytes.
        CountsLines setup.now checker.old.bound bytes checker.new.bound.counts)) }
    ensures printed { PrintsStream
        (AreSaved (StandsAfter setup.now (begun_of checker.old)) (K.has_kept setup.now) (B.remaining reader.old)
        saver.old.store saver.new.store)
        (saves_text (prints_save_of F.prints_save setup.now) (is_some saver.old.store))
        (prints_end_of F.prints_end setup.now)
        F.prints_failure (W.contents writer.old) (W.contents writer.new) checker.new.bound result }
{
    checker.bound.counts = Counts::none();
    stream_command(form, alloc, reader, writer, saver, setup, checker)
}
