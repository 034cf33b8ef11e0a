//! The lines of a reader, one at a time, in constant memory.

ghost use Rattle.std.specs.Prelude.{◌≡◌, ◌≤◌, IfOk, IfErr, IfSome, OnOk, length};
ghost use Rattle.cdc_follow.specs.Lines.{FirstLineIsLong, TakesLine};
ghost use Rattle.cdc_follow.specs.LineParts.{AddsPart, HasNoFeed, IsPart, PartIsLong};

use crate::entries::LONGEST_LINE;
use memchr::memchr;
use std::alloc::{AllocError, Global};
use std::io;
use std::io::{BufRead, ErrorKind};
use thiserror::Error;

/// Why no line was read.
#[derive(Debug, Drop, Error)]
pub enum ReadError {
    /// The reader failed.
    #[error("{0}")]
    Read(io::Error),
    /// The line has too many bytes; it isn't read to its end.
    #[error("the line is too long")]
    TooLong,
    /// Memory ran out.
    #[error("out of memory")]
    OutOfMemory,
}

impl From<AllocError> for ReadError {
    ghost use Rattle.std.specs.Prelude.{◌≡◌};
    ghost use Rattle.cdc_follow.specs.declared.lines.ReadError.TheVariants.{OutOfMemory};

    ghost from_gives = { λ _ e. e ≡ OutOfMemory };

    fn from(_error: AllocError) -> ReadError {
        ReadError::OutOfMemory
    }
}

// How a part of a line ends.
#[derive(Clone, Copy)]
enum PartEnd {
    // The line goes on.
    More,
    // By the line feed, which is no part of the line.
    Feed,
    // The stream ends, and the part is empty.
    Stream,
}

// A part of a line at the front of some bytes: how many bytes it has, and how many it takes with its line feed.
#[derive(Clone, Copy)]
struct Part {
    length: usize,
    taken: usize,
    end: PartEnd,
}

// The part of a line that bytes begin with.
fn first_part(available: &[u8]) -> Part
    ensures { IsPart available.now result }
{
    match memchr(b'\n', available) {
        Some(place) => Part {
            length: place,
            taken: place + 1,
            end: PartEnd::Feed,
        },
        None if available.is_empty() => Part {
            length: 0,
            taken: 0,
            end: PartEnd::Stream,
        },
        None => Part {
            length: available.len(),
            taken: available.len(),
            end: PartEnd::More,
        },
    }
}

// Adds what the reader has in its buffer of a line.
fn add_part<B: BufRead>(reader: &mut B, line: &mut Vec<u8>) -> Result<PartEnd, ReadError>
    requires { length line.old.items ≤ LONGEST_LINE }
    ensures part { IfOk result (λ end. AddsPart (B.remaining reader.old) (B.remaining reader.new)
        line.old.items line.new.items end) }
    ensures within { OnOk result (length line.new.items ≤ LONGEST_LINE) }
    ensures long { IfErr result (λ error. error ≡ ReadError.TooLong
        → PartIsLong (B.remaining reader.old) line.old.items) }
{
    let available = match reader.fill_buf() {
        Ok(available) => available,
        Err(error) if error.kind() == ErrorKind::Interrupted => return Ok(PartEnd::More),
        Err(error) => return Err(ReadError::Read(error)),
    };
    let part = first_part(available);
    if part.length > LONGEST_LINE - line.len() {
        return Err(ReadError::TooLong);
    }
    line.extend_from_slice(&available[..part.length])?;
    reader.consume(part.taken);
    Ok(part.end)
}

/// Reads the next line, without its line feed, into the buffer, whose bytes before are dropped; returns whether there
/// is one. A line with too many bytes is an error as soon as that shows, so the buffer never holds more than
/// `LONGEST_LINE`.
pub fn read_line<B: BufRead>(reader: &mut B, line: &mut Vec<u8>) -> Result<bool, ReadError>
    ensures line { IfOk result (λ more. IfSome (B.remaining reader.old) (λ bytes.
        TakesLine more bytes line.new.items (B.remaining reader.new))) }
    ensures within { OnOk result (length line.new.items ≤ LONGEST_LINE) }
    ensures clean { OnOk result (HasNoFeed line.new.items) }
    ensures long { IfErr result (λ error. error ≡ ReadError.TooLong
        → IfSome (B.remaining reader.old) FirstLineIsLong) }
{
    line.clear();
    for _ in 0..u64::MAX {
        match add_part(reader, line)? {
            PartEnd::More => {}
            PartEnd::Feed => return Ok(true),
            PartEnd::Stream => return Ok(!line.is_empty()),
        }
    }
    Err(ReadError::Read(io::Error::from(ErrorKind::Other)))
}
