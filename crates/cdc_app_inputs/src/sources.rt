//! What commands read from.

use cdc_arguments::STANDARD_INPUT;
use std::fs::File;
use std::io::{Read, StdinLock};
use std::{fs, io};

/// The path of standard input.
const STANDARD_INPUT_PATH: &str = "/dev/stdin";

/// Standard input or a file. A file that can't be opened fails only when it is read.
#[derive(Drop)]
pub enum Source {
    Standard(StdinLock<'static>),
    Open(File),
    /// Why a file can't be opened, which is the error of each read.
    Missed(io::Error),
}

impl Source {
    /// The script or the stream of this name; `-` is standard input.
    pub fn of_script(rt: &HostRuntime, name: &str) -> Source {
        if name == STANDARD_INPUT {
            Source::Standard(rt.reader())
        } else {
            Source::of_file(rt, name)
        }
    }

    /// The file of this name; `-` is a file too.
    pub fn of_file(rt: &HostRuntime, name: &str) -> Source {
        match File::open(rt, name) {
            Ok(file) => Source::Open(file),
            Err(error) => Source::Missed(error),
        }
    }
}

impl Read for Source {
    fn read(&mut self, buf: &mut [u8]) -> io::Result<usize> {
        match self {
            Source::Standard(input) => input.read(buf),
            Source::Open(file) => file.read(buf),
            Source::Missed(error) => Err(*error),
        }
    }
}

/// A stream, of which it is known whether it is a regular file.
#[derive(Drop)]
pub struct Stream {
    source: Source,
    is_regular: bool,
}

impl Stream {
    /// The stream of this name; `-` is standard input.
    pub fn of(rt: &HostRuntime, name: &str) -> Stream {
        let path = if name == STANDARD_INPUT {
            STANDARD_INPUT_PATH
        } else {
            name
        };
        Stream {
            source: Source::of_script(rt, name),
            is_regular: fs::metadata(rt, path).is_ok_and(|data| data.is_file()),
        }
    }

    /// Whether a read may have to wait for bytes that aren't there yet. Those of a regular file are there.
    pub fn may_wait(&self) -> bool {
        !self.is_regular
    }
}

impl Read for Stream {
    fn read(&mut self, buf: &mut [u8]) -> io::Result<usize> {
        self.source.read(buf)
    }
}
