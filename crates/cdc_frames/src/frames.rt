//! How a frame is written, and how it is read back.

ghost use Rattle.std.specs.Prelude.{◌≡◌, ◌++◌, codes, length, None, IfOk, IfSome, OnOk};
ghost use Rattle.std.specs.Io.KnownBytes.{Appends};
ghost use Rattle.cdc_frames.specs.FrameParts as spec;
ghost use Rattle.cdc_frames.specs.FrameParts.{BeginsNot};
ghost use Rattle.cdc_frames.specs.Frames.{BeginsNoFrame, frame, frame_line};

use cdc_codec::{number, skip, write_named, write_text};
use std::alloc::{AllocError, Global};
use std::io;
use std::io::Write;

/// A frame that was read.
#[derive(Clone, Copy)]
pub struct WholeFrame<'a> {
    /// The text in it.
    pub content: &'a [u8],
    /// The bytes after the frame.
    pub rest: &'a [u8],
}

/// Writes a line with a name, the number of a frame, and how many bytes the frame's content has.
fn write_line<W: Write>(writer: &mut W, name: &str, number: u64, size: u128) -> io::Result<()>
    ensures { OnOk result (Appends (W.contents writer.old) (W.contents writer.new)
        (frame_line name.now number size)) }
{
    write_named(writer, name, number)?;
    write_named(writer, " bytes", size)?;
    write_text(writer, "\n")
}

/// Writes the frame of this number with this content. `name` begins its first line, and is the same for all frames that
/// are written one after another. After an error, a prefix of the frame may have been written.
pub fn write_frame<W: Write>(
    writer: &mut W,
    name: &str,
    number: u64,
    content: &[u8],
) -> io::Result<()>
    ensures { OnOk result (Appends (W.contents writer.old) (W.contents writer.new)
        (frame name.now number content.now)) }
{
    let size = content.len() as u128;
    write_line(writer, name, number, size)?;
    writer.write_all(content)?;
    write_line(writer, "end", number, size)
}

/// The text of such a line.
fn line_text(alloc: Global, name: &str, number: u64, size: u128) -> Result<Vec<u8>, AllocError>
    ensures { IfOk result (λ text. text.items ≡ frame_line name.now number size) }
{
    let mut text = Vec::new(alloc);
    // (a write to a vector fails only if memory runs out)
    match write_line(&mut text, name, number, size) {
        Ok(()) => Ok(text),
        Err(_) => Err(AllocError),
    }
}

/// The size that a text's first line states, after a name of this length.
fn stated_size(text: &[u8], name_length: usize) -> u128
    ensures { result ≡ spec.size_at name_length text.now }
{
    let (_, rest) = number(skip(text, name_length));
    let (size, _) = number(skip(rest, 6));
    size
}

/// The bytes after these ones, if a text begins with them.
fn after<'a>(text: &'a [u8], start: &[u8]) -> Option<&'a [u8]>
    ensures begins { IfSome result (λ rest. text.now ≡ start.now ++ rest.now) }
    ensures none { result ≡ None → BeginsNot start.now text.now }
{
    if text.starts_with(start) {
        Some(&text[start.len()..])
    } else {
        None
    }
}

/// Reads the frame of this name and number with which a text begins. `None`: it begins with no whole one. The only
/// error is that memory ran out.
pub fn read_frame<'a>(
    alloc: Global,
    text: &'a [u8],
    name: &str,
    number: u64,
) -> Result<Option<WholeFrame<'a>>, AllocError>
    ensures whole { IfOk result (λ read. IfSome read (λ found.
        text.now ≡ frame name.now number found.content.now ++ found.rest.now)) }
    ensures torn { IfOk result (λ read. read ≡ None → BeginsNoFrame name.now number text.now) }
{
    let size = stated_size(text, name.len());
    let first = line_text(alloc, name, number, size)?;
    let last = line_text(alloc, "end", number, size)?;
    let Some(content) = after(text, first.as_slice()) else {
        return Ok(None);
    };
    if size > content.len() as u128 {
        return Ok(None);
    }
    let (content, rest) = content.split_at(size as usize);
    let Some(rest) = after(rest, last.as_slice()) else {
        return Ok(None);
    };
    Ok(Some(WholeFrame { content, rest }))
}
