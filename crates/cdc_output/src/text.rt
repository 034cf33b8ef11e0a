//! Lines of text: their parts, and how they are written.

ghost use Rattle.std.specs.Prelude.{◌≡◌, ◌++◌, OnOk};
ghost use Rattle.std.specs.Io.KnownBytes.{Appends};

use itoa::{Buffer, Integer};
use std::alloc::AllocError;
use std::io;
use std::io::Write;

/// Adds a part of a text.
pub fn push(text: &mut Vec<u8>, part: &str) -> Result<(), AllocError>
    ensures { OnOk result (text.new.items ≡ text.old.items ++ part.now) }
{
    text.extend_from_slice(part.as_bytes())
}

/// Adds a name and a number.
pub fn push_named<I: Integer>(text: &mut Vec<u8>, name: &str, value: I) -> Result<(), AllocError>
    ensures { OnOk result (text.new.items ≡ text.old.items ++ (name.now ++ I.text value)) }
{
    push(text, name)?;
    push(text, Buffer::new().format(value))
}

/// Writes a text and flushes it. After an error some of it may be written.
pub fn write_text<W: Write>(writer: &mut W, text: &[u8]) -> io::Result<()>
    ensures { OnOk result (Appends (W.contents writer.old) (W.contents writer.new) text.now) }
{
    writer.write_all(text)?;
    writer.flush()
}
