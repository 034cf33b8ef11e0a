//! The parts of a line, as they are written. After an error, a prefix of a part may have been written.

ghost use Rattle.std.specs.Prelude.{◌++◌, codes, OnOk};
ghost use Rattle.std.specs.Io.KnownBytes.{Appends};
ghost use Rattle.cdc_codec.specs.Texts.{flagged};

use itoa::{Buffer, Integer};
use std::io;
use std::io::Write;

/// Writes a text.
pub fn write_text<W: Write>(writer: &mut W, text: &str) -> io::Result<()>
    ensures { OnOk result (Appends (W.contents writer.old) (W.contents writer.new) text.now) }
{
    writer.write_all(text.as_bytes())
}

/// Writes a space and a number.
pub fn write_spaced<W: Write, I: Integer>(writer: &mut W, number: I) -> io::Result<()>
    ensures { OnOk result (Appends (W.contents writer.old) (W.contents writer.new)
        (codes " " ++ I.text number)) }
{
    write_text(writer, " ")?;
    write_text(writer, Buffer::new().format(number))
}

/// Writes a name, a space and a number.
pub fn write_named<W: Write, I: Integer>(writer: &mut W, name: &str, number: I) -> io::Result<()>
    ensures { OnOk result (Appends (W.contents writer.old) (W.contents writer.new)
        (name.now ++ (codes " " ++ I.text number))) }
{
    write_text(writer, name)?;
    write_spaced(writer, number)
}

/// Writes a name, a space, and yes or no.
pub fn write_flagged<W: Write>(writer: &mut W, name: &str, flag: bool) -> io::Result<()>
    ensures { OnOk result (Appends (W.contents writer.old) (W.contents writer.new)
        (flagged name.now flag)) }
{
    write_text(writer, name)?;
    write_text(writer, if flag { " yes" } else { " no" })
}
