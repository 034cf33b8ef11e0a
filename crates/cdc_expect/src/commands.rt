//! The command: it follows a stream, and prints what comes of each line.

ghost use Rattle.std.specs.Prelude.{◌≡◌, IfErr, IfOk, IfSome};
ghost use Rattle.std.specs.Io.KnownBytes.{Appends};
ghost use Rattle.cdc_follow.specs.Stops.{StepLeadsTo, bytes_followed, stop_of};
ghost use Rattle.cdc_follow.specs.Turns.{StepTurns};
ghost use Rattle.cdc_streams.specs.Saving.{IfStopped, PrintsBy, is_write_fault};
ghost use Rattle.cdc_expect.specs.Expect.{expect_text, lines_text, turn_text as text_of_turn};
ghost use Rattle.cdc_expect.specs.Printing.{PrintsExpected, PrintsFirst, PrintsFront};

use crate::turns::turn_text;
use cdc_follow::{Follower, Rules, Stop, Turn, follow_line};
use cdc_match::Binding;
use cdc_output::{FaultForm, ProgramFault};
use cdc_streams::{StreamEnding, fail, fault_of, write_part};
use cdc_subscriber::Subscriber;
use std::alloc::Global;
use std::io;
use std::io::{BufRead, ErrorKind, Write};

/// Follows the lines of a reader, numbered from 1, and prints a JSON line of what comes of each, up to the one at which
/// following stops; or the fault of a command that failed. Each line is printed before the next one is read. Nothing is
/// written after a write that failed.
pub fn expect_command<F: FaultForm, B: BufRead, W: Write>(
    form: &F,
    alloc: Global,
    reader: &mut B,
    writer: &mut W,
    binding: &Binding,
    rules: Rules,
    follower: &mut Follower,
) -> StreamEnding<Stop>
    ensures stops { IfStopped result (λ stop. IfSome (B.remaining reader.old) (λ bytes.
        bytes_followed binding.now rules follower.old bytes ≡ record { state = follower.new; stop = stop })) }
    ensures printed { IfSome (B.remaining reader.old) (λ bytes. PrintsExpected F.prints_failure
        (expect_text binding.now rules follower.old bytes) (W.contents writer.old) (W.contents writer.new) result) }
{
    match expect_lines(alloc, reader, writer, binding, rules, follower) {
        Ok(stop) => StreamEnding::Stopped(stop),
        Err(fault) => fail(form, writer, fault),
    }
}

/// Follows the lines of a reader, and prints what comes of each.
fn expect_lines<B: BufRead, W: Write>(
    alloc: Global,
    reader: &mut B,
    writer: &mut W,
    binding: &Binding,
    rules: Rules,
    follower: &mut Follower,
) -> Result<Stop, ProgramFault>
    ensures stops { IfOk result (λ stop. IfSome (B.remaining reader.old) (λ bytes.
        bytes_followed binding.now rules follower.old bytes ≡ record { state = follower.new; stop = stop })) }
    ensures printed { IfSome (B.remaining reader.old) (λ bytes. PrintsFront
        (expect_text binding.now rules follower.old bytes) (W.contents writer.old) (W.contents writer.new) result) }
{
    let mut line = Vec::new(alloc);
    for number in 1..u64::MAX {
        match expect_line(
            alloc, reader, writer, &mut line, number, binding, rules, follower,
        ) {
            Ok(Turn::GoesOn(_)) => {}
            Ok(Turn::Stops(stop)) => return Ok(stop),
            Err(fault) => return Err(fault),
        }
    }
    Err(ProgramFault::ReadFault(io::Error::from(ErrorKind::Other)))
}

/// Follows the line of this number, and prints what comes of it.
fn expect_line<B: BufRead, W: Write>(
    alloc: Global,
    reader: &mut B,
    writer: &mut W,
    line: &mut Vec<u8>,
    number: u64,
    binding: &Binding,
    rules: Rules,
    follower: &mut Follower,
) -> Result<Turn, ProgramFault>
    ensures leads { IfOk result (λ turn. IfSome (B.remaining reader.old) (λ bytes. StepLeadsTo binding.now rules number
        follower.old bytes (stop_of turn) follower.new (B.remaining reader.new))) }
    ensures turns { IfOk result (λ turn. IfSome (B.remaining reader.old) (λ bytes. StepTurns binding.now rules number
        follower.old bytes turn follower.new (B.remaining reader.new))) }
    ensures printed { IfOk result (λ turn. Appends (W.contents writer.old) (W.contents writer.new)
        (text_of_turn number turn follower.new.kept)) }
    ensures fails { IfErr result (λ why. IfSome (B.remaining reader.old) (λ bytes. PrintsFirst why
        (lines_text binding.now rules follower.old number bytes) (W.contents writer.old) (W.contents writer.new))) }
{
    match follow_line(alloc, reader, line, number, binding, rules, follower) {
        Ok(turn) => print_turn(alloc, writer, number, turn, follower.subscriber()),
        Err(error) => Err(fault_of(error)),
    }
}

/// Prints what came of the line of this number, after which the subscriber is as it is.
fn print_turn<W: Write>(
    alloc: Global,
    writer: &mut W,
    number: u64,
    turn: Turn,
    subscriber: &Subscriber,
) -> Result<Turn, ProgramFault>
    ensures same { IfOk result (λ it. it ≡ turn) }
    ensures printed { IfOk result (λ it. Appends (W.contents writer.old) (W.contents writer.new)
        (text_of_turn number it subscriber.now)) }
    ensures fails { IfErr result (λ why. PrintsFirst why (text_of_turn number turn subscriber.now)
        (W.contents writer.old) (W.contents writer.new)) }
{
    match turn_text(alloc, number, &turn, subscriber) {
        Ok(text) => print_text(writer, text.as_slice(), turn),
        Err(_) => Err(ProgramFault::OutOfMemory),
    }
}

/// Prints the text of a turn, and returns the turn.
fn print_text<W: Write>(writer: &mut W, text: &[u8], turn: Turn) -> Result<Turn, ProgramFault>
    ensures same { IfOk result (λ it. it ≡ turn) }
    ensures printed { IfOk result (λ _. Appends (W.contents writer.old) (W.contents writer.new) text.now) }
    ensures fails { IfErr result (λ why. PrintsBy (is_write_fault why) (W.contents writer.old)
        (W.contents writer.new) text.now) }
{
    match write_part(writer, text) {
        Ok(()) => Ok(turn),
        Err(fault) => Err(fault),
    }
}
