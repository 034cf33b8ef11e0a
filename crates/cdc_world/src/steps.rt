//! The answers of a world to a step.

ghost use Rattle.std.specs.Prelude.{◌≡◌};
ghost use Rattle.cdc_world.specs.Errors.{step_error_name, step_error_number};

use cdc_ledger::BatchError;
use cdc_progress::StoreError;
use cdc_subscriber::Taking;
use cdc_types::BatchResults;
use thiserror::Error;

/// The answer to a step that was done.
#[derive(Drop)]
pub enum Did {
    /// The ledger's results of a batch.
    Submitted(BatchResults),
    /// A packet came to the broker; whether the broker took it.
    Arrived(bool),
    /// A confirm or an acknowledgement came; whether it counted.
    Counted(bool),
    /// A subscriber's answer to a delivery.
    Took(Taking),
    /// Any other step was done.
    Done,
}

/// Why a step wasn't done.
#[derive(Clone, Copy, Debug, PartialEq, Eq, Error)]
pub enum StepError {
    /// There is nothing that the step could act on now.
    #[error("not_enabled")]
    NotEnabled,
    /// The ledger refuses the batch, for this reason.
    #[error("refused: {}", .0.name())]
    Refused(BatchError),
    /// The store failed, with this error.
    #[error("store: {}", .0.name())]
    Store(StoreError),
    /// There is no further number for a session.
    #[error("sessions_exhausted")]
    SessionsExhausted,
    /// Memory ran out.
    #[error("out_of_memory")]
    OutOfMemory,
    /// A timestamp to start after was given, but a session may start after one only if no progress is saved.
    #[error("start_not_allowed")]
    StartNotAllowed,
}

impl StepError {
    /// The error's number, from 1.
    pub fn number(self) -> u8
        ensures { result ≡ step_error_number self }
    {
        match self {
            StepError::NotEnabled => 1,
            StepError::Refused(_) => 2,
            StepError::Store(_) => 3,
            StepError::SessionsExhausted => 4,
            StepError::OutOfMemory => 5,
            StepError::StartNotAllowed => 6,
        }
    }

    /// The error's name as it is printed.
    pub fn name(self) -> &'static str
        ensures { result.now ≡ step_error_name self }
    {
        match self {
            StepError::NotEnabled => "not_enabled",
            StepError::Refused(_) => "refused",
            StepError::Store(_) => "store",
            StepError::SessionsExhausted => "sessions_exhausted",
            StepError::OutOfMemory => "out_of_memory",
            StepError::StartNotAllowed => "start_not_allowed",
        }
    }
}
