//! Lines that are of another format, or no JSON text.

use cdc_follow::LineError;
use cdc_message::DecodeError;
use cdc_types::Limits;
use std::alloc::AllocError;
use std::fmt::Write;

/// The words that lines of a script begin with.
const SCRIPT_WORDS: [&[u8]; 7] = [
    b"subscriber",
    b"client",
    b"accounts",
    b"account",
    b"transfers",
    b"transfer",
    b"pulse",
];

/// What a line is that is no JSON object.
#[derive(Clone, Copy, PartialEq, Eq)]
pub(crate) enum Shape {
    /// The head of a file that is compressed with gzip.
    Gzip,
    /// The head of a file in UTF-8 with a byte order mark.
    Marked,
    /// The head of a file in UTF-16.
    Utf16,
    /// The head of an array.
    Array,
    /// A line of a script, whose first word has so many bytes.
    Script(usize),
    /// A line with more bytes than a line may have.
    TooLong,
    /// A text that ends before its value does. Its last byte is this one.
    Open(usize),
    /// A text that goes wrong at this byte, from 1.
    NoJson(usize),
}

impl Shape {
    /// The shape of a text that JSON's reader refuses at this byte, from 1, or at its end.
    pub(crate) fn of_json_error(column: usize, is_at_end: bool) -> Shape {
        if is_at_end {
            Shape::Open(column)
        } else {
            Shape::NoJson(column)
        }
    }
}

/// What a line is that is no entry for this reason, if its first bytes show it.
pub(crate) fn shape_of(line: &[u8], number: u64, error: LineError) -> Option<Shape> {
    match error {
        LineError::Decode(DecodeError::NotJson | DecodeError::NotAnObject) => {
            head_of(line, number)
        }
        LineError::TooLong => Some(head_of(line, number).unwrap_or(Shape::TooLong)),
        _ => None,
    }
}

/// What the first bytes of a line show.
fn head_of(line: &[u8], number: u64) -> Option<Shape> {
    if number == 1 {
        if line.starts_with(b"\x1F\x8B") {
            return Some(Shape::Gzip);
        }
        if line.starts_with(b"\xEF\xBB\xBF") {
            return Some(Shape::Marked);
        }
        if line.starts_with(b"\xFF\xFE") || line.starts_with(b"\xFE\xFF") {
            return Some(Shape::Utf16);
        }
    }
    if line.starts_with(b"[") {
        return Some(Shape::Array);
    }
    script_word(line).map(|length| Shape::Script(length))
}

/// How many bytes the first word of a line has, if it is a script's.
fn script_word(line: &[u8]) -> Option<usize> {
    if line.starts_with(b"#") {
        return Some(1);
    }
    let length = line.iter().take_while(|byte| **byte != b' ').count();
    let word = line.get(..length).unwrap_or(line);
    if SCRIPT_WORDS.iter().any(|known| *known == word) {
        Some(length)
    } else {
        None
    }
}

/// Adds what a line of this shape is, and what is expected. Returns the byte that this is about, from 1.
pub(crate) fn push_shape(
    text: &mut String,
    line: &[u8],
    shape: Shape,
) -> Result<usize, AllocError> {
    match shape {
        Shape::Gzip => {
            text.push_str("this is gzip: `gzip -dc FILE` prints the stream that it holds")?;
            Ok(1)
        }
        Shape::Marked => {
            text.push_str(
                "the stream begins with a byte order mark, bytes 239, 187 and 191: save it without one",
            )?;
            Ok(1)
        }
        Shape::Utf16 => {
            text.push_str("the stream is UTF-16: save it as UTF-8, without a byte order mark")?;
            Ok(1)
        }
        Shape::Array => {
            text.push_str(
                "an array begins here, and one object a line is expected: `jq -c '.[]' FILE` makes them so",
            )?;
            Ok(1)
        }
        Shape::Script(length) => {
            push_script(text, line, length)?;
            Ok(1)
        }
        Shape::TooLong => {
            push_limit(text)?;
            Ok(0)
        }
        Shape::Open(column) => {
            text.push_str(
                "the line ends within an object, and one object a line is expected: `jq -c . FILE` makes them so",
            )?;
            Ok(column.saturating_add(1))
        }
        Shape::NoJson(column) => {
            push_unexpected(text, line, column)?;
            Ok(column)
        }
    }
}

/// Adds that this is a script, and what prints its messages.
fn push_script(text: &mut String, line: &[u8], length: usize) -> Result<(), AllocError> {
    let word = line.get(..length).unwrap_or(line);
    text.push_str("`")?;
    text.push_str(str::from_utf8(word).unwrap_or("#"))?;
    text.push_str("` begins a line of a script, whose messages `relayplum messages FILE` prints")
}

/// Adds which byte is no part of a JSON text.
fn push_unexpected(text: &mut String, line: &[u8], column: usize) -> Result<(), AllocError> {
    let byte = line.get(column.saturating_sub(1)).copied().unwrap_or(b'\n');
    let is_shown = byte > b' ' && byte < 0x7F;
    let letter = char::from(byte);
    // (a write to a text fails only if memory runs out)
    let written = if is_shown {
        write!(
            text,
            "`{letter}` is unexpected here: one JSON object a line is expected"
        )
    } else {
        write!(
            text,
            "byte {byte} is unexpected here: one JSON object a line is expected"
        )
    };
    match written {
        Ok(()) => Ok(()),
        Err(_) => Err(AllocError),
    }
}

/// Adds how long a line may be.
fn push_limit(text: &mut String) -> Result<(), AllocError> {
    let most = Limits::LINE_BYTES;
    match write!(
        text,
        "the line has more than {most} bytes, which a line has at most"
    ) {
        Ok(()) => Ok(()),
        Err(_) => Err(AllocError),
    }
}
