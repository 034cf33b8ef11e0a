//! What no contract states of a writer: a text doesn't wait in its buffer, and an error of it ends the command.

use cdc_commands::{Ending, print_text};
use cdc_output::ProgramFault;
use std::io;
use std::io::Write;

// A writer that takes a byte at a time, and counts how many wait for a flush. One call of it may fail.
#[derive(Drop)]
struct CountingWriter {
    waiting: usize,
    flushed: usize,
    write_fails: bool,
    flush_fails: bool,
}

impl CountingWriter {
    fn new() -> CountingWriter {
        CountingWriter {
            waiting: 0,
            flushed: 0,
            write_fails: false,
            flush_fails: false,
        }
    }
}

impl Write for CountingWriter {
    fn write(&mut self, buf: &[u8]) -> io::Result<usize> {
        if self.write_fails {
            return Err(io::Error::from(io::ErrorKind::BrokenPipe));
        }
        let taken = buf.len().min(1);
        self.waiting = self.waiting.saturating_add(taken);
        Ok(taken)
    }

    fn flush(&mut self) -> io::Result<()> {
        if self.flush_fails {
            return Err(io::Error::from(io::ErrorKind::StorageFull));
        }
        self.flushed = self.flushed.saturating_add(self.waiting);
        self.waiting = 0;
        Ok(())
    }
}

// The kind of the error with which a text was written. None if it was written.
fn error_of(writer: &mut CountingWriter) -> Option<io::ErrorKind> {
    match print_text(writer, b"batch 1: 0\n", Ending::Done) {
        Ending::Failed(ProgramFault::WriteFault(error)) => Some(error.kind()),
        _ => None,
    }
}

#[test]
fn a_text_does_not_wait(rt: HostRuntime) {
    let mut writer = CountingWriter::new();
    assert!(rt; error_of(&mut writer).is_none());
    assert_eq!(rt; (writer.waiting, writer.flushed), (0, 11));
}

#[test]
fn a_refused_flush_ends_the_command(rt: HostRuntime) {
    let mut writer = CountingWriter::new();
    writer.flush_fails = true;
    assert_eq!(rt; error_of(&mut writer), Some(io::ErrorKind::StorageFull));
}

#[test]
fn a_refused_write_ends_the_command(rt: HostRuntime) {
    let mut writer = CountingWriter::new();
    writer.write_fails = true;
    assert_eq!(rt; error_of(&mut writer), Some(io::ErrorKind::BrokenPipe));
}
