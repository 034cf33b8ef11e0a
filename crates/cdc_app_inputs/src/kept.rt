//! Readers that keep a copy of the bytes that go through them.

use std::alloc::Global;
use std::io;
use std::io::Read;

/// A reader, and a copy of the bytes that went through it.
#[derive(Drop)]
pub struct Kept<T> {
    inner: T,
    /// What went through, as far as there was memory for it.
    bytes: Vec<u8>,
    /// Whether there was memory for all of the bytes.
    whole: bool,
    failed: bool,
}

/// A file that a command has read.
#[derive(Clone, Copy)]
pub struct Seen<'a> {
    /// Its name, as diagnostics show it.
    pub name: &'a str,
    /// Its bytes. None if there was no memory for all of them.
    pub bytes: Option<&'a [u8]>,
    /// Whether a read failed.
    pub failed: bool,
}

impl<T> Kept<T> {
    /// A reader that nothing has gone through.
    pub fn new(alloc: Global, inner: T) -> Kept<T> {
        Kept {
            inner,
            bytes: Vec::new(alloc),
            whole: true,
            failed: false,
        }
    }

    /// What was read, as the file that diagnostics show by this name.
    pub fn seen<'a>(&'a self, name: &'a str) -> Seen<'a> {
        Seen {
            name,
            bytes: self.bytes(),
            failed: self.failed,
        }
    }

    /// The bytes that went through it. None if there was no memory for all of them.
    pub fn bytes(&self) -> Option<&[u8]> {
        if self.whole {
            Some(self.bytes.as_slice())
        } else {
            None
        }
    }

    /// Copies what went through.
    fn keep(&mut self, piece: &[u8]) {
        self.whole = self.whole && self.bytes.extend_from_slice(piece).is_ok();
    }
}

impl<R: Read> Read for Kept<R> {
    fn read(&mut self, buf: &mut [u8]) -> io::Result<usize> {
        match self.inner.read(buf) {
            Ok(count) => {
                self.keep(&buf[..count]);
                Ok(count)
            }
            Err(error) => {
                self.failed = true;
                Err(error)
            }
        }
    }
}
