//! Reading frames from a reader.

ghost use Rattle.std.specs.Prelude.{◌≡◌, [], ◌∷◌, length, IfOk, IfSome, OnOk};
ghost use Rattle.std.specs.Int.{w16, w32, to_be_bytes};
ghost use Rattle.std.specs.Io.KnownBytes.{Consumes};
ghost use Rattle.cdc_amqp_frames.specs.Frames as spec;
ghost use Rattle.cdc_amqp_frames.specs.Frames.{Fits, view};
ghost use Rattle.cdc_amqp_frames.specs.Reading.{EndsWithin, IsFault};

use crate::errors::{FrameFault, ReadFrameError};
use crate::frames::{FRAME_END, Frame, FrameKind};
use std::alloc::Global;
use std::io;
use std::io::{ErrorKind, Read};

// Fills a buffer from a reader. `Incomplete`: the reader had fewer bytes.
fn fill<R: Read>(reader: &mut R, buffer: &mut [u8]) -> Result<(), ReadFrameError>
    ensures size { length buffer.new ≡ length buffer.old }
    ensures filled { OnOk result (Consumes (R.remaining reader.old) (R.remaining reader.new) buffer.new) }
    ensures ended { EndsWithin (length buffer.old) (R.remaining reader.old) result }
{
    let mut at = 0;
    for _ in 0..u64::MAX {
        if at >= buffer.len() {
            return Ok(());
        }
        match reader.read(&mut buffer[at..]) {
            Ok(0) => return Err(ReadFrameError::Fault(FrameFault::Incomplete)),
            Ok(count) => {
                at += count;
                continue;
            }
            Err(error) => {
                if error.kind() != ErrorKind::Interrupted {
                    return Err(ReadFrameError::Read(error));
                }
            }
        }
    }
    Err(ReadFrameError::Read(io::Error::from(ErrorKind::Other)))
}

fn read_u8<R: Read>(reader: &mut R) -> Result<u8, ReadFrameError>
    ensures read { IfOk result (λ n. Consumes (R.remaining reader.old) (R.remaining reader.new) (n ∷ [])) }
    ensures ended { EndsWithin 1 (R.remaining reader.old) result }
{
    let mut bytes = [0u8; 1];
    fill(reader, &mut bytes)?;
    Ok(bytes[0])
}

fn u16_of(bytes: &[u8]) -> u16
    requires { length bytes.now ≡ 2 }
    ensures { to_be_bytes w16 result ≡ bytes.now }
{
    u16::from_be_bytes([bytes[0], bytes[1]])
}

fn read_u16<R: Read>(reader: &mut R) -> Result<u16, ReadFrameError>
    ensures read { IfOk result (λ n. Consumes (R.remaining reader.old) (R.remaining reader.new) (to_be_bytes w16 n)) }
    ensures ended { EndsWithin 2 (R.remaining reader.old) result }
{
    let mut bytes = [0u8; 2];
    fill(reader, &mut bytes)?;
    Ok(u16_of(&bytes))
}

fn u32_of(bytes: &[u8]) -> u32
    requires { length bytes.now ≡ 4 }
    ensures { to_be_bytes w32 result ≡ bytes.now }
{
    u32::from_be_bytes([bytes[0], bytes[1], bytes[2], bytes[3]])
}

fn read_u32<R: Read>(reader: &mut R) -> Result<u32, ReadFrameError>
    ensures read { IfOk result (λ n. Consumes (R.remaining reader.old) (R.remaining reader.new) (to_be_bytes w32 n)) }
    ensures ended { EndsWithin 4 (R.remaining reader.old) result }
{
    let mut bytes = [0u8; 4];
    fill(reader, &mut bytes)?;
    Ok(u32_of(&bytes))
}

fn read_bytes<R: Read>(
    alloc: Global,
    reader: &mut R,
    size: usize,
) -> Result<Vec<u8>, ReadFrameError>
    ensures read { IfOk result (λ v. Consumes (R.remaining reader.old) (R.remaining reader.new) v.items) }
    ensures size { IfOk result (λ v. length v.items ≡ size) }
    ensures ended { EndsWithin size (R.remaining reader.old) result }
{
    let mut bytes = vec![in alloc; 0u8; size]?;
    fill(reader, &mut bytes)?;
    Ok(bytes)
}

/// The next frame of a reader. `limit`: the greatest size of a payload, in bytes. After an error the reader may be
/// within a frame. A fault is that of the bytes; only a reader that fails, or memory that runs out, is another error.
pub fn read_frame<R: Read>(
    alloc: Global,
    reader: &mut R,
    limit: u32,
) -> Result<Frame, ReadFrameError>
    ensures frame { IfOk result (λ f. Consumes (R.remaining reader.old) (R.remaining reader.new)
        (spec.frame (view f))) }
    ensures fits { IfOk result (λ f. Fits limit (view f)) }
    ensures fault { IsFault limit (R.remaining reader.old) result }
{
    let first = read_u8(reader)?;
    let Some(kind) = FrameKind::of_byte(first) else {
        return Err(ReadFrameError::Fault(FrameFault::UnknownKind));
    };
    let channel = read_u16(reader)?;
    let size = read_u32(reader)?;
    if size > limit {
        return Err(ReadFrameError::Fault(FrameFault::TooLong));
    }
    let payload = read_bytes(alloc, reader, size as usize)?;
    let end = read_u8(reader)?;
    if end != FRAME_END {
        return Err(ReadFrameError::Fault(FrameFault::NoEnd));
    }
    Ok(Frame {
        kind,
        channel,
        payload,
    })
}
