//! Errors of a subscriber.

ghost use Rattle.std.specs.Prelude.{◌≡◌};
ghost use Rattle.cdc_subscriber.specs.TakeErrors.{take_error_number, take_error_name};

use cdc_message::DecodeError;
use std::alloc::AllocError;
use thiserror::Error;

/// Why a subscriber couldn't take a delivery or a body. The subscriber is then unchanged.
#[derive(Clone, Copy, Debug, PartialEq, Eq, Error)]
pub enum TakeError {
    /// The body isn't an event, for this reason. The reason is never that memory ran out.
    #[error("the body is no event: {0}")]
    Decode(DecodeError),
    /// Memory ran out while reading the body or applying its event.
    #[error("out of memory")]
    OutOfMemory,
}

impl From<DecodeError> for TakeError {
    ghost use Rattle.std.specs.Prelude.{◌≡◌};
    ghost use Rattle.cdc_subscriber.specs.TakeErrors.{reading_error};

    ghost from_gives = { λ error e. e ≡ reading_error error };

    fn from(error: DecodeError) -> TakeError {
        match error {
            DecodeError::OutOfMemory => TakeError::OutOfMemory,
            _ => TakeError::Decode(error),
        }
    }
}

impl From<AllocError> for TakeError {
    ghost use Rattle.std.specs.Prelude.{◌≡◌};
    ghost use Rattle.cdc_subscriber.specs.declared.errors.TakeError.TheVariants.{OutOfMemory};

    ghost from_gives = { λ _ e. e ≡ OutOfMemory };

    fn from(_error: AllocError) -> TakeError {
        TakeError::OutOfMemory
    }
}

impl TakeError {
    /// The error's number, 1 or 2.
    pub fn number(self) -> u8
        ensures { result ≡ take_error_number self }
    {
        match self {
            TakeError::Decode(_) => 1,
            TakeError::OutOfMemory => 2,
        }
    }

    /// The error's name. It is the same for every reason why a body isn't an event.
    pub fn name(self) -> &'static str
        ensures { result.now ≡ take_error_name self }
    {
        match self {
            TakeError::Decode(_) => "decode",
            TakeError::OutOfMemory => "out_of_memory",
        }
    }
}
