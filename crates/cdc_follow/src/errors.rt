//! Why a line is no entry of a stream.

ghost use Rattle.std.specs.Prelude.{◌≡◌};
ghost use Rattle.cdc_follow.specs.LineErrors.{line_error_name};

use cdc_message::DecodeError;
use thiserror::Error;

/// Why a line is no entry of a stream. Of several reasons the first counts, in this order.
#[derive(Clone, Copy, Debug, PartialEq, Eq, Error)]
pub enum LineError {
    /// The line has too many bytes.
    #[error("the line is too long")]
    TooLong,
    /// The line, or its body, is no event, for this reason; never because memory ran out.
    #[error("the line is no event: {0}")]
    Decode(DecodeError),
    /// The line has no `previous`.
    #[error("previous is missing")]
    PreviousMissing,
    /// The line's `previous` is no whole number.
    #[error("previous has the wrong type")]
    PreviousWrongType,
    /// The line's `previous` is above 2^64-1.
    #[error("previous is too large")]
    PreviousOutOfRange,
    /// The event's timestamp is above 2^63-1, which no ledger exceeds.
    #[error("the timestamp is above 9223372036854775807")]
    TimestampOutOfRange,
    /// Memory ran out.
    #[error("out of memory")]
    OutOfMemory,
}

impl From<DecodeError> for LineError {
    ghost use Rattle.std.specs.Prelude.{◌≡◌};
    ghost use Rattle.cdc_follow.specs.LineErrors.{decoding_error};

    ghost from_gives = { λ error e. e ≡ decoding_error error };

    fn from(error: DecodeError) -> LineError {
        match error {
            DecodeError::OutOfMemory => LineError::OutOfMemory,
            _ => LineError::Decode(error),
        }
    }
}

impl LineError {
    /// The error's name.
    pub fn name(self) -> &'static str
        ensures { result.now ≡ line_error_name self }
    {
        match self {
            LineError::TooLong => "too_long",
            LineError::Decode(error) => error.name(),
            LineError::PreviousMissing => "missing",
            LineError::PreviousWrongType => "wrong_type",
            LineError::PreviousOutOfRange => "out_of_range",
            LineError::TimestampOutOfRange => "out_of_range",
            LineError::OutOfMemory => "out_of_memory",
        }
    }
}
