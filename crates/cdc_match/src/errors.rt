//! Errors of parsing a binding.

ghost use Rattle.std.specs.Prelude.{◌≡◌};
ghost use Rattle.cdc_match.specs.Errors.{error_number, error_name};

use std::alloc::{AllocError, AllocFailed};
use thiserror::Error;

/// Why words aren't a binding. Of several errors it is the first one from the left.
#[derive(Clone, Copy, Debug, PartialEq, Eq, Error)]
pub enum BindError {
    /// The first word is neither `all` nor `any`, or there is none.
    #[error("a binding begins with all or any")]
    BadMode,
    /// A word has no equals sign, or the text before its first one isn't the name of a header.
    #[error("a word of a binding names no header")]
    UnknownKey,
    /// The text after the first equals sign isn't a value of that header.
    #[error("a word of a binding gives a value that its header can't have")]
    BadValue,
    #[error("a binding has more than ten pairs")]
    TooManyPairs,
    /// Memory for the pairs ran out.
    #[error("out of memory")]
    OutOfMemory,
}

impl From<AllocError> for BindError {
    ghost use Rattle.std.specs.Prelude.{◌≡◌};
    ghost use Rattle.cdc_match.specs.declared.errors.BindError.TheVariants.{OutOfMemory};

    ghost from_gives = { λ _ e. e ≡ OutOfMemory };

    fn from(_error: AllocError) -> BindError {
        BindError::OutOfMemory
    }
}

impl<T: Drop> From<AllocFailed<T>> for BindError {
    ghost use Rattle.std.specs.Prelude.{◌≡◌};
    ghost use Rattle.cdc_match.specs.declared.errors.BindError.TheVariants.{OutOfMemory};

    ghost from_gives = { λ _ e. e ≡ OutOfMemory };

    fn from(_error: AllocFailed<T>) -> BindError {
        BindError::OutOfMemory
    }
}

impl BindError {
    /// The error's number, from 1 to 5.
    pub fn number(self) -> u8
        ensures { result ≡ error_number self }
    {
        match self {
            BindError::BadMode => 1,
            BindError::UnknownKey => 2,
            BindError::BadValue => 3,
            BindError::TooManyPairs => 4,
            BindError::OutOfMemory => 5,
        }
    }

    /// The name that is printed.
    pub fn name(self) -> &'static str
        ensures { result.now ≡ error_name self }
    {
        match self {
            BindError::BadMode => "bad_mode",
            BindError::UnknownKey => "unknown_key",
            BindError::BadValue => "bad_value",
            BindError::TooManyPairs => "too_many_pairs",
            BindError::OutOfMemory => "out_of_memory",
        }
    }
}
