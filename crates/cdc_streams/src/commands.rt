//! A command over a stream: it takes the stream up to the line at which it stops, saves now and then, and prints.

ghost use Rattle.std.specs.Prelude.{◌≡◌, [], is_some, IfOk, IfSome, IsTrue};
ghost use Rattle.std.specs.Io.KnownBytes.{Appends};
ghost use Rattle.cdc_streams.specs.Saving.{AreSaved, IfStopped, PrintsEnd, PrintsFault, PrintsLast, PrintsSaves};
ghost use Rattle.cdc_streams.specs.Saving.{PrintsStream, is_write_fault, saves_text};

use crate::consumers::Consumer;
use crate::endings::{StreamEnding, fault_of};
use crate::readers::LineReader;
use crate::savers::Saver;
use crate::stores::Keeps;
use crate::writing::write_part;
use cdc_output::{FaultForm, ProgramFault};
use std::alloc::Global;
use std::io;
use std::io::{ErrorKind, Write};

/// Takes the lines of a reader, numbered from 1, and saves after every so many lines, each time that no whole line is
/// waiting, and at the end. Once the store holds a save, `Consumer::saved_text` is printed of it. The first save is of
/// the whole.
pub fn take_stream<F, C: Consumer<F>, B: LineReader, W: Write, K: Keeps<C>>(
    form: &F,
    alloc: Global,
    reader: &mut B,
    writer: &mut W,
    saver: &mut Saver<K>,
    setup: &C::Setup,
    consumer: &mut C,
) -> Result<C::Stop, ProgramFault>
    ensures stops { IfOk result (λ stop. IfSome (B.remaining reader.old) (λ bytes.
        C.stops setup.now (C.state consumer.old) bytes stop (C.state consumer.new))) }
    ensures saved { PrintsSaves (AreSaved (C.stands setup.now (C.state consumer.old)) (K.has_kept setup.now)
        (B.remaining reader.old) saver.old.store saver.new.store)
        (saves_text (C.prints_saved setup.now) (is_some saver.old.store))
        (W.contents writer.old) (W.contents writer.new) (C.state consumer.new) result }
{
    consumer.forget_changes();
    let mut line = Vec::new(alloc);
    for number in 1..u64::MAX {
        let waits = !reader.has_line();
        if let Err(fault) = saver.save_if_due(form, alloc, writer, setup, consumer, waits) {
            return Err(fault);
        }
        let ended = match consumer.take_line(setup, alloc, reader, &mut line, number) {
            Ok(None) => {
                saver.count_line();
                continue;
            }
            Ok(Some(stop)) => Ok(stop),
            Err(error) => Err(fault_of(error)),
        };
        if let Err(fault) = saver.save(form, alloc, writer, setup, consumer) {
            return Err(fault);
        }
        return ended;
    }
    Err(ProgramFault::ReadFault(io::Error::from(ErrorKind::Other)))
}

/// Takes a stream, and prints each save, and at the end what `Consumer::end_text` gives; or the fault of a command that
/// failed. Nothing is written after a write that failed.
pub fn stream_command<F: FaultForm, C: Consumer<F>, B: LineReader, W: Write, K: Keeps<C>>(
    form: &F,
    alloc: Global,
    reader: &mut B,
    writer: &mut W,
    saver: &mut Saver<K>,
    setup: &C::Setup,
    consumer: &mut C,
) -> StreamEnding<C::Stop>
    ensures stops { IfStopped result (λ stop. IfSome (B.remaining reader.old) (λ bytes.
        C.stops setup.now (C.state consumer.old) bytes stop (C.state consumer.new))) }
    ensures printed { PrintsStream (AreSaved (C.stands setup.now (C.state consumer.old)) (K.has_kept setup.now)
        (B.remaining reader.old) saver.old.store saver.new.store)
        (saves_text (C.prints_saved setup.now) (is_some saver.old.store)) (C.prints_end setup.now) F.prints_failure
        (W.contents writer.old) (W.contents writer.new) (C.state consumer.new) result }
{
    match take_stream(form, alloc, reader, writer, saver, setup, consumer) {
        Ok(stop) => print_end(form, alloc, writer, setup, consumer, stop),
        Err(fault) => fail(form, writer, fault),
    }
}

/// Prints the end.
fn print_end<F: FaultForm, C: Consumer<F>, W: Write>(
    form: &F,
    alloc: Global,
    writer: &mut W,
    setup: &C::Setup,
    consumer: &C,
    stop: C::Stop,
) -> StreamEnding<C::Stop>
    ensures stops { IfStopped result (λ it. it ≡ stop) }
    ensures printed { PrintsEnd (C.prints_end setup.now) F.prints_failure []
        (W.contents writer.old) (W.contents writer.new) (C.state consumer.now) result }
{
    match consumer.end_text(form, setup, alloc, stop) {
        Ok(text) => print_last(writer, text.as_slice(), StreamEnding::Stopped(stop)),
        Err(_) => fail(form, writer, ProgramFault::OutOfMemory),
    }
}

/// Prints the fault of a command that failed, unless it is one of a write.
pub fn fail<F: FaultForm, S: Copy, W: Write>(
    form: &F,
    writer: &mut W,
    fault: ProgramFault,
) -> StreamEnding<S>
    ensures fails { IfStopped result (λ _. ⊥) }
    ensures printed { PrintsFault F.prints_failure [] (W.contents writer.old) (W.contents writer.new) fault result }
    ensures quiet { IsTrue (is_write_fault fault)
        → (result ≡ StreamEnding.Failed fault) × Appends (W.contents writer.old) (W.contents writer.new) [] }
{
    if let ProgramFault::WriteFault(_) = fault {
        return StreamEnding::Failed(fault);
    }
    print_last(
        writer,
        form.failure(fault).as_bytes(),
        StreamEnding::Failed(fault),
    )
}

/// Prints the last text. Returns this ending, or a write fault if the write fails.
fn print_last<S: Copy, W: Write>(
    writer: &mut W,
    text: &[u8],
    ending: StreamEnding<S>,
) -> StreamEnding<S>
    ensures { PrintsLast (W.contents writer.old) (W.contents writer.new) text.now ending result }
{
    match write_part(writer, text) {
        Ok(()) => ending,
        Err(fault) => StreamEnding::Failed(fault),
    }
}
