//! Errors of a session's start.

ghost use Rattle.std.specs.Prelude.{◌≡◌};
ghost use Rattle.cdc_publisher.specs.Errors.{start_error_number, start_error_name};

use cdc_progress::StoreError;
use std::alloc::AllocError;
use thiserror::Error;

/// Why a session doesn't start.
#[derive(Clone, Copy, Debug, PartialEq, Eq, Error)]
pub enum StartError {
    /// The store couldn't load or save, for this reason. The reason is never that memory ran out.
    #[error("the store refused: {0}")]
    Store(StoreError),
    /// The greatest session number is used up.
    #[error("there is no further session number")]
    SessionsExhausted,
    /// Memory ran out, here or in the store.
    #[error("out of memory")]
    OutOfMemory,
    /// A timestamp to start after was given, although progress is saved already.
    #[error("progress is saved, so no start may be asked for")]
    StartNotAllowed,
}

impl From<StoreError> for StartError {
    ghost use Rattle.std.specs.Prelude.{◌≡◌};
    ghost use Rattle.cdc_publisher.specs.Errors.{store_refusal};

    ghost from_gives = { λ error e. e ≡ store_refusal error };

    fn from(error: StoreError) -> StartError {
        match error {
            StoreError::OutOfMemory => StartError::OutOfMemory,
            _ => StartError::Store(error),
        }
    }
}

impl From<AllocError> for StartError {
    ghost use Rattle.std.specs.Prelude.{◌≡◌};
    ghost use Rattle.cdc_publisher.specs.declared.errors.StartError.TheVariants.{OutOfMemory};

    ghost from_gives = { λ _ e. e ≡ OutOfMemory };

    fn from(_error: AllocError) -> StartError {
        StartError::OutOfMemory
    }
}

impl StartError {
    /// The error's number, from 1 to 4.
    pub fn number(self) -> u8
        ensures { result ≡ start_error_number self }
    {
        match self {
            StartError::Store(_) => 1,
            StartError::SessionsExhausted => 2,
            StartError::OutOfMemory => 3,
            StartError::StartNotAllowed => 4,
        }
    }

    /// The error's name. It is the same for every reason of the store.
    pub fn name(self) -> &'static str
        ensures { result.now ≡ start_error_name self }
    {
        match self {
            StartError::Store(_) => "store",
            StartError::SessionsExhausted => "sessions_exhausted",
            StartError::OutOfMemory => "out_of_memory",
            StartError::StartNotAllowed => "start_not_allowed",
        }
    }
}
