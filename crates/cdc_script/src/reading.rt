//! Reading the bytes of scripts and step files.

ghost use Rattle.std.specs.Prelude.{◌≡◌, ◌+◌, ◌≤◌, ◌<◌, length, false, Err, IfOk, IfSome};
ghost use Rattle.std.specs.Io.KnownBytes.{Consumes, IsAtEnd};
ghost use Rattle.cdc_script.specs.Reading.{AppendsPiece, ConsumesAtMost, ConsumesSome};
ghost use Rattle.cdc_script.specs.Scripts.{max_bytes, script_of};
ghost use Rattle.cdc_script.specs.StepFiles.{acts_of};

use crate::faults::ReadError;
use cdc_types::Limits;
use std::alloc::Global;
use std::io::Read;

/// The maximum number of bytes in one read.
const PIECE: usize = 8192;

/// Reads the bytes of a script or a step file, and stops after one byte more than is allowed. The result parses as
/// all bytes of the reader would. The error is the reader's, or out of memory after a byte was read. After an error the
/// reader isn't read again.
pub fn read_text<R: Read>(alloc: Global, reader: &mut R) -> Result<Vec<u8>, ReadError>
    ensures bounded { ConsumesAtMost (max_bytes + 1)
        (R.remaining reader.old) (R.remaining reader.new) }
    ensures text { IfOk result (λ text. Consumes
        (R.remaining reader.old) (R.remaining reader.new) text.items) }
    ensures whole { IfOk result (λ text. length text.items ≤ max_bytes
        → IsAtEnd (R.remaining reader.new)) }
    ensures memory { result ≡ Err ReadError.OutOfMemory
        → ConsumesSome (R.remaining reader.old) (R.remaining reader.new) }
    ensures script { IfSome (R.remaining reader.old) (λ bytes.
        IfOk result (λ text. script_of text.items ≡ script_of bytes)) }
    ensures steps { IfSome (R.remaining reader.old) (λ bytes.
        IfOk result (λ text. acts_of text.items ≡ acts_of bytes)) }
{
    read_pieces(alloc, reader)
}

/// Reads the bytes piece by piece.
fn read_pieces<R: Read>(alloc: Global, reader: &mut R) -> Result<Vec<u8>, ReadError>
    ensures bounded { ConsumesAtMost (max_bytes + 1)
        (R.remaining reader.old) (R.remaining reader.new) }
    ensures text { IfOk result (λ text. Consumes
        (R.remaining reader.old) (R.remaining reader.new) text.items) }
    ensures whole { IfOk result (λ text. length text.items ≤ max_bytes
        → IsAtEnd (R.remaining reader.new)) }
    ensures memory { result ≡ Err ReadError.OutOfMemory
        → ConsumesSome (R.remaining reader.old) (R.remaining reader.new) }
{
    let mut text = Vec::new(alloc);
    let mut piece = [0u8; PIECE];
    while text.len() <= Limits::SCRIPT_BYTES {
        let room = (Limits::SCRIPT_BYTES + 1 - text.len()).min(PIECE);
        if !read_piece(reader, &mut piece[..room], &mut text)? {
            return Ok(text);
        }
    }
    Ok(text)
}

/// Reads the next piece and appends it to a text. Returns whether the piece has a byte; if not, the reader is at its
/// end. The error is the reader's, or out of memory if the piece has a byte.
fn read_piece<R: Read>(
    reader: &mut R,
    piece: &mut [u8],
    text: &mut Vec<u8>,
) -> Result<bool, ReadError>
    requires { 0 < length piece.old }
    ensures bounded { ConsumesAtMost (length piece.old)
        (R.remaining reader.old) (R.remaining reader.new) }
    ensures text { IfOk result (λ more. AppendsPiece more (length piece.old)
        (R.remaining reader.old) (R.remaining reader.new) text.old.items text.new.items) }
    ensures end { IfOk result (λ more. more ≡ false → IsAtEnd (R.remaining reader.new)) }
    ensures memory { result ≡ Err ReadError.OutOfMemory
        → ConsumesSome (R.remaining reader.old) (R.remaining reader.new) }
{
    let count = match reader.read(piece) {
        Ok(count) => count,
        Err(error) => return Err(ReadError::ReadFault(error)),
    };
    if count == 0 {
        return Ok(false);
    }
    text.extend_from_slice(&piece[..count])?;
    Ok(true)
}
