//! Readers of which it is known whether a line can be read without waiting.

ghost use Rattle.std.specs.Prelude.{◌≡◌, Bool};

use cdc_read_ahead::{AheadReader, Known};
use std::io::{BufRead, BufReader, Read};
use std::sync::Wait;
use std::thread::Threads;

/// A reader that knows whether the next line can be read without waiting.
pub trait LineReader: BufRead {
    /// The next line, or the end, can be read without waiting.
    ghost is_ready: { Self → Bool };

    /// Whether the next line, or the end, can be read without waiting. What is left to read stays the same.
    fn has_line(&mut self) -> bool
        ensures ready { result ≡ is_ready self.new }
        ensures left { Self.remaining self.new ≡ Self.remaining self.old };
}

/// What is read from a regular file, or from another reader that never waits: its bytes are there.
impl<R: Read> LineReader for BufReader<R> {
    ghost use Rattle.std.specs.Prelude.{true};

    ghost is_ready = { λ _. true };

    fn has_line(&mut self) -> bool {
        true
    }
}

/// What may have to be waited for, such as a pipe, is read ahead by another thread.
impl<O: Known, R: Threads + Wait + Copy> LineReader for AheadReader<O, R> {
    ghost use Rattle.cdc_read_ahead.specs.Readers.{line_is_ready};

    ghost is_ready = { line_is_ready };

    fn has_line(&mut self) -> bool {
        AheadReader::has_line(self)
    }
}
