//! The thread that reads.

ghost use Rattle.std.specs.Prelude.{◌≡◌, [], length, vec_len};
ghost use Rattle.cdc_read_ahead.specs.Pieces.{AreBytesOf, IsBlockOf, ReadsIfSome};
ghost use Rattle.cdc_read_ahead.specs.declared.pieces.TheConstants.{BLOCK_BYTES};

use crate::pieces::{Ending, Known, Piece, Sent};
use cdc_links::{LinkOut, Naming};
use std::alloc::Global;
use std::io;
use std::io::{ErrorKind, Read};
use std::sync::Wait;

/// The name of a piece, which names nothing.
struct Nothing;

impl Naming<()> for Nothing {
    ghost name = { tt };
}

/// A block with these bytes; if memory runs out, that failure.
fn block_of(alloc: Global, bytes: &[u8]) -> Piece
    ensures { IsBlockOf bytes.now result }
{
    match Vec::from_slice(alloc, bytes) {
        Ok(block) => Piece::Block(block),
        Err(_) => Piece::Last(Ending::Failed(io::Error::from(ErrorKind::OutOfMemory))),
    }
}

/// Reads the next piece through a buffer. `None`: the read was interrupted.
fn read_piece<T: Read>(alloc: Global, reader: &mut T, buffer: &mut [u8]) -> Option<Piece>
    requires { length buffer.old ≡ BLOCK_BYTES }
    ensures { ReadsIfSome (T.remaining reader.old) result (T.remaining reader.new) }
{
    match reader.read(buffer) {
        Ok(0) => Some(Piece::Last(Ending::AtEnd)),
        Ok(count) => Some(block_of(alloc, &buffer[..count])),
        Err(error) if error.kind() == ErrorKind::Interrupted => None,
        Err(error) => Some(Piece::Last(Ending::Failed(error))),
    }
}

/// Reads all pieces and sends each, up to the last one, or until the receiver is gone.
pub(crate) fn read_all<O: Known, T: Read + Drop, R: Wait>(
    rt: &R,
    alloc: Global,
    mut reader: T,
    mut buffer: Vec<u8>,
    mut link: LinkOut<Sent<O>>,
)
    requires known { AreBytesOf O.bytes (T.remaining reader) }
    requires fresh { link.sent ≡ [] }
    requires buffer { vec_len buffer ≡ BLOCK_BYTES }
{
    for _ in 0..u64::MAX {
        let Some(piece) = read_piece(alloc, &mut reader, buffer.as_mut_slice()) else {
            continue;
        };
        let is_last = piece.ending().is_some();
        let Ok(()) = link.send::<Nothing, R>(rt, Sent::of(piece)) else {
            return;
        };
        if is_last {
            return;
        }
    }
}
