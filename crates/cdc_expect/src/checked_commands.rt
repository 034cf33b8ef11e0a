//! The command: it follows a stream by checking it, and prints what comes of each line.

ghost use Rattle.std.specs.Prelude.{◌≡◌, IfErr, IfOk, IfSome, IsSome, OnOk};
ghost use Rattle.std.specs.Io.KnownBytes.{Appends};
ghost use Rattle.cdc_checked_follow.specs.Checking.{CheckedState};
ghost use Rattle.cdc_checked_follow.specs.Standing.{StandsFor};
ghost use Rattle.cdc_checked_follow.specs.Streams.{Checks, StepLeadsTo};
ghost use Rattle.cdc_checked_follow.specs.Turns.{StepTurns, stop_of};
ghost use Rattle.cdc_streams.specs.Saving.{IfStopped};
ghost use Rattle.cdc_expect.specs.Checked.{checked_text, kept_by, lines_text, turn_text as text_of_turn};
ghost use Rattle.cdc_expect.specs.Printing.{PrintsExpected, PrintsFirst, PrintsFront};

use crate::checked_turns::{kept_of, turn_text};
use crate::lines::Kept;
use cdc_checked_follow::{CheckStop, CheckTurn, CheckedFollower, check_line};
use cdc_match::Binding;
use cdc_output::{FaultForm, ProgramFault};
use cdc_streams::{StreamEnding, fail, fault_of, write_part};
use std::alloc::Global;
use std::io;
use std::io::{BufRead, ErrorKind, Write};

/// Follows the lines of a reader, numbered from 1, by checking them, and prints a JSON line of what comes of each, up to
/// the one at which following stops; or the fault of a command that failed. Each line is printed before the next one is
/// read. Nothing is written after a write that failed. `skips_gaps`: a refused event is skipped; otherwise following
/// stops at it.
pub fn expect_checked_command<F: FaultForm, B: BufRead, W: Write>(
    form: &F,
    alloc: Global,
    reader: &mut B,
    writer: &mut W,
    binding: &Binding,
    skips_gaps: bool,
    follower: &mut CheckedFollower,
) -> StreamEnding<CheckStop>
    ensures stops { IfStopped result (λ stop. IfSome (B.remaining reader.old) (λ bytes.
        Checks binding.now skips_gaps follower.old bytes stop follower.new)) }
    ensures printed { IfSome (B.remaining reader.old) (λ bytes. (state : CheckedState)
        → StandsFor binding.now follower.old state → PrintsExpected F.prints_failure
        (checked_text binding.now skips_gaps state bytes) (W.contents writer.old) (W.contents writer.new) result) }
{
    match expect_lines(alloc, reader, writer, binding, skips_gaps, follower) {
        Ok(stop) => StreamEnding::Stopped(stop),
        Err(fault) => fail(form, writer, fault),
    }
}

/// Follows the lines of a reader, and prints what comes of each.
fn expect_lines<B: BufRead, W: Write>(
    alloc: Global,
    reader: &mut B,
    writer: &mut W,
    binding: &Binding,
    skips_gaps: bool,
    follower: &mut CheckedFollower,
) -> Result<CheckStop, ProgramFault>
    ensures stops { IfOk result (λ stop. IfSome (B.remaining reader.old) (λ bytes.
        Checks binding.now skips_gaps follower.old bytes stop follower.new)) }
    ensures printed { IfSome (B.remaining reader.old) (λ bytes. (state : CheckedState)
        → StandsFor binding.now follower.old state → PrintsFront
        (checked_text binding.now skips_gaps state bytes) (W.contents writer.old) (W.contents writer.new) result) }
{
    let mut line = Vec::new(alloc);
    for number in 1..u64::MAX {
        match expect_line(
            alloc, reader, writer, &mut line, number, binding, skips_gaps, follower,
        ) {
            Ok(CheckTurn::GoesOn(..)) => {}
            Ok(CheckTurn::Stops(stop)) => return Ok(stop),
            Err(fault) => return Err(fault),
        }
    }
    Err(ProgramFault::ReadFault(io::Error::from(ErrorKind::Other)))
}

/// Follows the line of this number, and prints what comes of it.
fn expect_line<B: BufRead, W: Write>(
    alloc: Global,
    reader: &mut B,
    writer: &mut W,
    line: &mut Vec<u8>,
    number: u64,
    binding: &Binding,
    skips_gaps: bool,
    follower: &mut CheckedFollower,
) -> Result<CheckTurn, ProgramFault>
    ensures leads { IfOk result (λ turn. IfSome (B.remaining reader.old) (λ bytes. StepLeadsTo binding.now skips_gaps
        number follower.old bytes (stop_of turn) follower.new (B.remaining reader.new))) }
    ensures turns { IfOk result (λ turn. IfSome (B.remaining reader.old) (λ bytes.
        StepTurns binding.now skips_gaps number follower.old bytes turn)) }
    ensures stays { IfOk result (λ turn. IsSome (stop_of turn) → follower.new ≡ follower.old) }
    ensures printed { IfOk result (λ turn. Appends (W.contents writer.old) (W.contents writer.new)
        (text_of_turn number turn (kept_by follower.new))) }
    ensures fails { IfErr result (λ why. IfSome (B.remaining reader.old) (λ bytes. (state : CheckedState)
        → StandsFor binding.now follower.old state → PrintsFirst why
        (lines_text binding.now skips_gaps state number bytes) (W.contents writer.old) (W.contents writer.new))) }
{
    let turn = match check_line(alloc, reader, line, number, binding, skips_gaps, follower) {
        Ok(turn) => turn,
        Err(error) => return Err(fault_of(error)),
    };
    match print_turn(alloc, writer, number, &turn, kept_of(follower)) {
        Ok(()) => Ok(turn),
        Err(fault) => Err(fault),
    }
}

/// Prints what came of the line of this number, after which this is kept.
fn print_turn<W: Write>(
    alloc: Global,
    writer: &mut W,
    number: u64,
    turn: &CheckTurn,
    kept: Kept,
) -> Result<(), ProgramFault>
    ensures printed { OnOk result (Appends (W.contents writer.old) (W.contents writer.new)
        (text_of_turn number turn.now kept)) }
    ensures fails { IfErr result (λ why. PrintsFirst why (text_of_turn number turn.now kept)
        (W.contents writer.old) (W.contents writer.new)) }
{
    match turn_text(alloc, number, turn, kept) {
        Ok(text) => write_part(writer, text.as_slice()),
        Err(_) => Err(ProgramFault::OutOfMemory),
    }
}
