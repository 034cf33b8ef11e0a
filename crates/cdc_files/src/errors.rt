//! Why what is stored can't be loaded or saved.

ghost use Rattle.std.specs.Prelude.{◌≡◌};
ghost use Rattle.cdc_files.specs.Errors.{store_error_number, store_error_name};

use std::alloc::AllocError;
use thiserror::Error;

/// Why a store could not load or save.
#[derive(Clone, Copy, Debug, PartialEq, Eq, Error)]
pub enum StoreError {
    /// What is stored can't be read.
    #[error("what is stored can't be read")]
    ReadFault,
    /// What is to be stored can't be written.
    #[error("the store can't be written")]
    WriteFault,
    /// The stored bytes aren't in the store's format.
    #[error("what is stored has another form")]
    BadRecord,
    #[error("out of memory")]
    OutOfMemory,
}

impl StoreError {
    /// The error's number, from 1 to 4.
    pub fn number(self) -> u8
        ensures { result ≡ store_error_number self }
    {
        match self {
            StoreError::ReadFault => 1,
            StoreError::WriteFault => 2,
            StoreError::BadRecord => 3,
            StoreError::OutOfMemory => 4,
        }
    }

    pub fn name(self) -> &'static str
        ensures { result.now ≡ store_error_name self }
    {
        match self {
            StoreError::ReadFault => "read_fault",
            StoreError::WriteFault => "write_fault",
            StoreError::BadRecord => "bad_record",
            StoreError::OutOfMemory => "out_of_memory",
        }
    }
}

impl From<AllocError> for StoreError {
    ghost use Rattle.cdc_files.specs.declared.errors.StoreError.TheVariants.{OutOfMemory};

    ghost from_gives = { λ _ e. e ≡ OutOfMemory };

    fn from(_error: AllocError) -> StoreError {
        StoreError::OutOfMemory
    }
}
