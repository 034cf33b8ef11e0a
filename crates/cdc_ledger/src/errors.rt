//! Errors of whole batches.

ghost use Rattle.std.specs.Prelude.{◌≡◌};
ghost use Rattle.cdc_ledger.specs.BatchErrors.{batch_error_number, batch_error_name};

use std::alloc::AllocError;
use thiserror::Error;

/// Why a batch is refused as a whole. A refused batch leaves the ledger unchanged.
#[derive(Clone, Copy, Debug, PartialEq, Eq, Error)]
pub enum BatchError {
    #[error("the ledger is closed")]
    LedgerClosed,
    #[error("the batch has more than 1,000 items")]
    BatchTooLarge,
    /// The timestamp of its last item would exceed 2^63-1.
    #[error("its timestamps would pass 2^63-1")]
    TimestampsExhausted,
    #[error("out of memory")]
    OutOfMemory,
}

impl From<AllocError> for BatchError {
    ghost use Rattle.std.specs.Prelude.{◌≡◌};
    ghost use Rattle.cdc_ledger.specs.declared.errors.BatchError.TheVariants.{OutOfMemory};

    ghost from_gives = { λ _ e. e ≡ OutOfMemory };

    fn from(_error: AllocError) -> BatchError {
        BatchError::OutOfMemory
    }
}

impl BatchError {
    /// The error's number, from 1. If several errors apply, the ledger returns the one with the lowest number.
    pub fn number(self) -> u8
        ensures { result ≡ batch_error_number self }
    {
        match self {
            BatchError::LedgerClosed => 1,
            BatchError::BatchTooLarge => 2,
            BatchError::TimestampsExhausted => 3,
            BatchError::OutOfMemory => 4,
        }
    }

    /// The name that is printed.
    pub fn name(self) -> &'static str
        ensures { result.now ≡ batch_error_name self }
    {
        match self {
            BatchError::LedgerClosed => "ledger_closed",
            BatchError::BatchTooLarge => "batch_too_large",
            BatchError::TimestampsExhausted => "timestamps_exhausted",
            BatchError::OutOfMemory => "out_of_memory",
        }
    }
}
