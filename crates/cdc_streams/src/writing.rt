//! Writing texts of which a part may be written.

ghost use Rattle.std.specs.Prelude.{IfErr, IsTrue};
ghost use Rattle.cdc_streams.specs.Saving.{PrintsAll, is_write_fault};

use cdc_output::ProgramFault;
use std::io;
use std::io::{ErrorKind, Write};

/// Writes a text and flushes it. The one error is that a write failed, and then a part of it may be written.
pub fn write_part<W: Write>(writer: &mut W, text: &[u8]) -> Result<(), ProgramFault>
    ensures printed { PrintsAll (W.contents writer.old) (W.contents writer.new) text.now result }
    ensures fails { IfErr result (λ why. IsTrue (is_write_fault why)) }
{
    // (of an error of `write_all` it isn't known what it has written)
    let mut rest = text;
    for _ in 0..u64::MAX {
        if rest.is_empty() {
            break;
        }
        match writer.write(rest) {
            Ok(0) => return Err(ProgramFault::WriteFault(io::Error::from(ErrorKind::WriteZero))),
            Ok(count) => rest = &rest[count..],
            Err(error) if error.kind() == ErrorKind::Interrupted => {}
            Err(error) => return Err(ProgramFault::WriteFault(error)),
        }
    }
    match writer.flush() {
        Ok(()) if rest.is_empty() => Ok(()),
        Ok(()) => Err(ProgramFault::WriteFault(io::Error::from(ErrorKind::WriteZero))),
        Err(error) => Err(ProgramFault::WriteFault(error)),
    }
}
