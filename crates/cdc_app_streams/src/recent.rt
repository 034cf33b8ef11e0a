//! A reader that keeps the line which was read last.

use cdc_streams::LineReader;
use cdc_types::Limits;
use std::alloc::{AllocError, Global};
use std::io;
use std::io::{BufRead, Read};

/// How many bytes of a line are kept, with its line feed.
const MOST_KEPT: usize = Limits::LINE_BYTES + 1;

/// A reader of lines, and a copy of the line that was read last, so that what is wrong with it can be shown. Contracts
/// see none of its bytes: those of a file are known to no contract.
#[derive(Drop)]
pub struct Recent<B> {
    inner: B,
    /// The line's bytes so far, in memory that was taken at the start.
    line: Vec<u8>,
    /// Whether the line has ended, so that the next bytes are of another one.
    has_ended: bool,
    /// Whether bytes were shown that weren't consumed yet.
    is_shown: bool,
}

impl<B: BufRead + Drop> Recent<B> {
    /// A reader of which no line was read. Fails if it is out of memory.
    pub fn new(alloc: Global, inner: B) -> Result<Recent<B>, AllocError> {
        let line = Vec::with_capacity(alloc, MOST_KEPT)?;
        Ok(Recent {
            inner,
            line,
            has_ended: false,
            is_shown: false,
        })
    }

    /// The line that was read last, without its line feed. Of one that is too long it is a prefix.
    pub fn into_line(mut self) -> Vec<u8> {
        if self.is_shown {
            if let Ok(bytes) = self.inner.fill_buf() {
                keep(&mut self.line, &mut self.has_ended, bytes);
            }
        }
        if self.line.last() == Some(&b'\n') {
            let _feed = self.line.pop();
        }
        self.line
    }
}

/// Keeps what these bytes have of a line, after those before it.
fn keep(line: &mut Vec<u8>, has_ended: &mut bool, bytes: &[u8]) {
    if *has_ended {
        line.clear();
    }
    *has_ended = bytes.last() == Some(&b'\n');
    let room = MOST_KEPT.saturating_sub(line.len());
    let count = bytes.len().min(room);
    let _kept = line.extend_from_slice(&bytes[..count]);
}

impl<B: Read> Read for Recent<B> {
    fn read(&mut self, buf: &mut [u8]) -> io::Result<usize> {
        self.inner.read(buf)
    }
}

impl<B: BufRead> BufRead for Recent<B> {
    fn fill_buf(&mut self) -> io::Result<&[u8]> {
        self.is_shown = true;
        self.inner.fill_buf()
    }

    fn consume(&mut self, amount: usize) {
        self.is_shown = false;
        if amount > 0 {
            if let Ok(bytes) = self.inner.fill_buf() {
                let count = amount.min(bytes.len());
                keep(&mut self.line, &mut self.has_ended, &bytes[..count]);
            }
            self.inner.consume(amount);
        }
    }
}

impl<B: LineReader> LineReader for Recent<B> {
    ghost is_ready = { λ it. B.is_ready it.inner };

    fn has_line(&mut self) -> bool {
        self.inner.has_line()
    }
}
