//! Why consuming a queue fails.

use cdc_amqp_consumer::ConsumeFault;
use cdc_amqp_frames::FrameFault;
use cdc_files::StoreError;
use std::alloc::AllocError;
use std::io;
use thiserror::Error;

/// Why consuming a queue fails.
#[derive(Clone, Copy, Debug, Error)]
pub enum ConsumeFailure {
    /// The reader failed.
    #[error("{0}")]
    Read(io::Error),
    /// The server's bytes don't go on with a frame. `Incomplete`: they end.
    #[error("{0}")]
    Frame(FrameFault),
    /// The server sent a frame that it may not send now.
    #[error("{0}")]
    Fault(ConsumeFault),
    /// The store failed.
    #[error("{0}")]
    Store(StoreError),
    /// A write to the server failed. Nothing is written after it.
    #[error("{0}")]
    Write(io::Error),
    /// Memory ran out.
    #[error("out of memory")]
    OutOfMemory,
}

impl From<AllocError> for ConsumeFailure {
    ghost use Rattle.std.specs.Prelude.{◌≡◌};
    ghost use Rattle.cdc_amqp_dialogue.specs.declared.errors.ConsumeFailure.TheVariants.{OutOfMemory};

    ghost from_gives = { λ _ e. e ≡ OutOfMemory };

    fn from(_error: AllocError) -> ConsumeFailure {
        ConsumeFailure::OutOfMemory
    }
}
