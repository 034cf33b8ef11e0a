//! Why a consumer can't go on.

use std::alloc::AllocError;
use thiserror::Error;

/// Why the server may not send a frame now.
#[derive(Clone, Copy, Debug, PartialEq, Eq, Error)]
pub enum ConsumeFault {
    /// A method that a server doesn't send to a consumer, or one that is cut off.
    #[error("an unknown method")]
    UnknownMethod,
    /// A method or a part of a content that isn't awaited.
    #[error("a frame that is not awaited")]
    Unexpected,
    /// A frame on another channel than its own.
    #[error("a frame on a wrong channel")]
    WrongChannel,
    /// A delivery whose tag isn't the number of deliveries plus one.
    #[error("a delivery tag that is not the next one")]
    WrongTag,
    /// The header of a content that is cut off.
    #[error("a content header that is cut off")]
    BadHeader,
    /// More bytes of a content than its header states.
    #[error("a content that is longer than its header states")]
    TooMuch,
}

/// Why a consumer didn't take a frame.
#[derive(Clone, Copy, Debug, PartialEq, Eq, Error)]
pub enum ConsumeError {
    /// The server may not send it now.
    #[error("{0}")]
    Fault(ConsumeFault),
    /// Memory ran out.
    #[error("out of memory")]
    OutOfMemory,
}

impl From<AllocError> for ConsumeError {
    ghost use Rattle.std.specs.Prelude.{◌≡◌};
    ghost use Rattle.cdc_amqp_consumer.specs.declared.errors.ConsumeError.TheVariants.{OutOfMemory};

    ghost from_gives = { λ _ e. e ≡ OutOfMemory };

    fn from(_error: AllocError) -> ConsumeError {
        ConsumeError::OutOfMemory
    }
}
