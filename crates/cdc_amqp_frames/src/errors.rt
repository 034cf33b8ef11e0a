//! Why bytes aren't a frame.

use std::alloc::AllocError;
use std::io;
use thiserror::Error;

/// Why bytes don't begin with a frame. The first fault from the left is the one that counts.
#[derive(Clone, Copy, Debug, PartialEq, Eq, Error)]
pub enum FrameFault {
    /// The bytes end within the frame.
    #[error("the bytes end within a frame")]
    Incomplete,
    /// The first byte is not that of a kind of frame.
    #[error("a frame is of an unknown kind")]
    UnknownKind,
    /// The payload is longer than was negotiated.
    #[error("a frame is longer than was negotiated")]
    TooLong,
    /// The byte after the payload is not the end octet.
    #[error("a frame lacks its end octet")]
    NoEnd,
}

/// Why no frame was read from a reader.
#[derive(Clone, Copy, Debug, Error)]
pub enum ReadFrameError {
    /// The reader failed.
    #[error("{0}")]
    Read(io::Error),
    /// The reader's bytes don't begin with a frame. `Incomplete`: they end before the frame does.
    #[error("{0}")]
    Fault(FrameFault),
    /// Memory ran out.
    #[error("out of memory")]
    OutOfMemory,
}

impl From<AllocError> for ReadFrameError {
    ghost use Rattle.std.specs.Prelude.{◌≡◌};
    ghost use Rattle.cdc_amqp_frames.specs.declared.errors.ReadFrameError.TheVariants.{OutOfMemory};

    ghost from_gives = { λ _ e. e ≡ OutOfMemory };

    fn from(_error: AllocError) -> ReadFrameError {
        ReadFrameError::OutOfMemory
    }
}
