//! The command `audit`: audits a stream up to its end, saves its state, and prints what it finds.

ghost use Rattle.std.specs.Prelude.{◌≡◌, ◌++◌, ◌∷◌, [], is_some, None, IfSome, IsSomeAnd, IsTrue};
ghost use Rattle.cdc_audit_command.specs.Auditing.{StandsAfter, audit_of, begun_of, duplicates_by};
ghost use Rattle.cdc_audit_command.specs.Auditing.{prints_end_of, prints_save_of};
ghost use Rattle.cdc_audit_command.specs.Duplicates.{AuditsBy};
ghost use Rattle.cdc_streams.specs.Saving.{AreSaved, IfStopped, PrintsStream, saves_text};

use crate::endings::AuditEnding;
use crate::forms::AuditForm;
use crate::turns::{Turn, take_turn};
use cdc_audit::{AuditStop, Auditor};
use cdc_follow::FollowError;
use cdc_streams::{Consumer, Keeps, LineReader, Saved, Saver, stream_command};
use std::alloc::{AllocError, Global};
use std::io::{BufRead, Write};

/// How a stream is audited, and what is printed of it.
#[derive(Clone, Copy)]
pub struct AuditSetup {
    /// Whether the last balances are printed.
    pub shows_book: bool,
    /// Whether events that aren't later than the last accepted one are skipped and counted.
    pub skips_duplicates: bool,
}

/// What auditing a stream has come to. Contracts alone speak of it; no value of it is made.
#[derive(Drop)]
pub struct StreamAudit {
    /// The auditor, with what it keeps.
    pub auditor: Auditor,
    /// How many duplicates were skipped.
    pub duplicates: u64,
}

/// What audits a stream.
#[derive(Drop)]
pub struct StreamAuditor {
    /// The auditor, with what it keeps.
    auditor: Auditor,
    /// The lines that it has taken since it was saved, each with its line feed; `None` if they aren't kept, so the
    /// whole state has to be saved.
    lines: Option<Vec<u8>>,
    /// How many duplicates were skipped.
    duplicates: u64,
}

/// How many bytes of lines are kept, at most.
const MOST_BYTES: usize = 1 << 24;

/// Adds a line, and its line feed. `false`: it isn't added as a whole, since there are too many bytes, or memory ran
/// out.
fn add_line(lines: &mut Vec<u8>, line: &[u8]) -> bool
    ensures { IsTrue result → lines.new.items ≡ lines.old.items ++ (line.now ++ 10 ∷ []) }
{
    if line.len() >= MOST_BYTES.saturating_sub(lines.len()) {
        return false;
    }
    lines.extend_from_slice(line).is_ok() && lines.push(b'\n').is_ok()
}

impl StreamAuditor {
    /// An auditor that goes on from this one. No lines are kept, and no duplicate was skipped yet.
    pub fn new(auditor: Auditor) -> StreamAuditor
        ensures auditor { result.auditor ≡ auditor }
        ensures lines { result.lines ≡ None }
        ensures duplicates { result.duplicates ≡ 0 }
    {
        StreamAuditor {
            auditor,
            lines: None,
            duplicates: 0,
        }
    }

    /// The auditor, with what it keeps.
    pub fn auditor(&self) -> &Auditor
        ensures { result.now ≡ self.now.auditor }
    {
        &self.auditor
    }

    /// How many duplicates were skipped.
    pub fn duplicates(&self) -> u64
        ensures { result ≡ self.now.duplicates }
    {
        self.duplicates
    }

    /// The lines that were taken since it was saved, if they are kept.
    pub(crate) fn lines(&self) -> &Option<Vec<u8>>
        ensures { result.now ≡ self.now.lines }
    {
        &self.lines
    }

    /// Keeps a line that was taken, if the others are kept. If that isn't possible, they aren't kept any longer.
    fn keep_line(&mut self, line: &[u8])
        ensures auditor { self.new.auditor ≡ self.old.auditor }
        ensures duplicates { self.new.duplicates ≡ self.old.duplicates }
        ensures lines { IfSome self.new.lines (λ new. IsSomeAnd self.old.lines (λ old.
            new.items ≡ old.items ++ (line.now ++ 10 ∷ []))) }
    {
        let is_kept = match &mut self.lines {
            Some(lines) => add_line(lines, line),
            None => true,
        };
        if !is_kept {
            self.lines = None;
        }
    }
}

/// How many duplicates were skipped, if they are to be.
fn skipped_by(setup: &AuditSetup, duplicates: u64) -> Option<u64>
    ensures { result ≡ duplicates_by setup.now duplicates }
{
    if setup.skips_duplicates {
        Some(duplicates)
    } else {
        None
    }
}

impl Saved for StreamAuditor {
    ghost use Rattle.std.specs.Prelude.{◌≡◌, None};
    ghost use Rattle.cdc_audit_command.specs.Auditing.{audit_of};
    ghost use Rattle.cdc_audit_command.specs.Private.Kept.{GoesOn, IsSince};

    type Setup = AuditSetup;

    type State = StreamAudit;

    ghost state = { audit_of };

    ghost since = { λ past now. IsSince past.auditor now };

    ghost is_untracked = { λ now. now.lines ≡ None };

    ghost moves = { GoesOn };

    fn begin_changes(&mut self, alloc: Global) {
        self.lines = Some(Vec::new(alloc));
    }

    fn forget_changes(&mut self) {
        self.lines = None;
    }
}

impl<F: AuditForm> Consumer<F> for StreamAuditor {
    ghost use Rattle.cdc_audit_command.specs.Auditing.{StandsAfter, StopsAt, prints_end_of, prints_save_of};
    ghost use Rattle.cdc_audit_command.specs.Private.Audited.{HasAudited, audited_none, stands_after};

    type Stop = AuditStop;

    ghost has_taken = { HasAudited };

    ghost stands = { StandsAfter };

    ghost stops = { StopsAt };

    ghost prints_saved = { prints_save_of F.prints_saved };

    ghost prints_end = { prints_end_of F.prints_audit };

    fn take_line<B: BufRead>(
        &mut self,
        setup: &AuditSetup,
        alloc: Global,
        reader: &mut B,
        line: &mut Vec<u8>,
        number: u64,
    ) -> Result<Option<AuditStop>, FollowError> {
        match take_turn(
            alloc,
            reader,
            line,
            number,
            setup.skips_duplicates,
            &mut self.auditor,
        ) {
            Ok(Turn::Audited) => {
                self.keep_line(line.as_slice());
                Ok(None)
            }
            Ok(Turn::Duplicate) => {
                self.duplicates = self.duplicates.saturating_add(1);
                Ok(None)
            }
            Ok(Turn::Stops(stop)) => Ok(Some(stop)),
            Err(error) => Err(error),
        }
    }

    fn saved_text(
        &self,
        form: &F,
        _setup: &AuditSetup,
        alloc: Global,
    ) -> Result<Vec<u8>, AllocError> {
        form.saved(alloc, self.auditor.subscriber().last())
    }

    fn end_text(
        &self,
        form: &F,
        setup: &AuditSetup,
        alloc: Global,
        stop: AuditStop,
    ) -> Result<Vec<u8>, AllocError> {
        let skipped = skipped_by(setup, self.duplicates);
        let subscriber = self.auditor.subscriber();
        form.audit(alloc, setup.shows_book, skipped, subscriber, stop)
    }

    ghost begins = { audited_none };

    ghost stands_for_it = { stands_after };
}

/// Audits the lines of a reader, numbered from 1. It saves the state after every so many lines, each time that no whole
/// line is waiting, and at the end, and prints each save once the store holds its state; and at the end how much of the
/// stream is accepted, how many duplicates were skipped if they are to be, the last balances if they are to be shown,
/// and why auditing stopped, or the fault of a command that failed. Nothing is written after a write that failed.
/// Duplicates that were skipped before are not counted.
pub fn audit_command<F: AuditForm, B: LineReader, W: Write, K: Keeps<StreamAuditor>>(
    form: &F,
    alloc: Global,
    reader: &mut B,
    writer: &mut W,
    saver: &mut Saver<K>,
    setup: &AuditSetup,
    audited: &mut StreamAuditor,
) -> AuditEnding
    ensures audits { IfStopped result (λ stop. IfSome (B.remaining reader.old) (λ bytes. AuditsBy
        setup.now.skips_duplicates audited.old.auditor bytes stop audited.new.auditor audited.new.duplicates)) }
    ensures printed { PrintsStream
        (AreSaved (StandsAfter setup.now (begun_of audited.old)) (K.has_kept setup.now) (B.remaining reader.old)
        saver.old.store saver.new.store)
        (saves_text (prints_save_of F.prints_saved setup.now) (is_some saver.old.store))
        (prints_end_of F.prints_audit setup.now)
        F.prints_failure (W.contents writer.old) (W.contents writer.new) (audit_of audited.new) result }
{
    audited.duplicates = 0;
    stream_command(form, alloc, reader, writer, saver, setup, audited)
}
