//! Errors of reading a body.

ghost use Rattle.std.specs.Prelude.{◌≡◌};
ghost use Rattle.cdc_message.specs.Errors.{error_number, error_name};

use crate::fields::Field;
use thiserror::Error;

/// Why bytes aren't an event. Of several errors it is the first one in the order of the fields.
#[derive(Clone, Copy, Debug, PartialEq, Eq, Error)]
pub enum DecodeError {
    #[error("the bytes are no JSON text")]
    NotJson,
    #[error("the text is no JSON object")]
    NotAnObject,
    /// The body doesn't have this field.
    #[error("{0:?} is missing")]
    Missing(Field),
    /// This field doesn't have its type.
    #[error("{0:?} has the wrong type")]
    WrongType(Field),
    /// The number in this field is too large for the field's width.
    #[error("{0:?} is too large")]
    OutOfRange(Field),
    /// The text of the field `type` is none of the five kinds.
    #[error("the kind of event is unknown")]
    UnknownKind,
    /// Memory for the JSON value ran out.
    #[error("out of memory")]
    OutOfMemory,
}

impl DecodeError {
    /// The error's number, from 1 to 7.
    pub fn number(self) -> u8
        ensures { result ≡ error_number self }
    {
        match self {
            DecodeError::NotJson => 1,
            DecodeError::NotAnObject => 2,
            DecodeError::Missing(_) => 3,
            DecodeError::WrongType(_) => 4,
            DecodeError::OutOfRange(_) => 5,
            DecodeError::UnknownKind => 6,
            DecodeError::OutOfMemory => 7,
        }
    }

    /// The name that is printed.
    pub fn name(self) -> &'static str
        ensures { result.now ≡ error_name self }
    {
        match self {
            DecodeError::NotJson => "not_json",
            DecodeError::NotAnObject => "not_an_object",
            DecodeError::Missing(_) => "missing",
            DecodeError::WrongType(_) => "wrong_type",
            DecodeError::OutOfRange(_) => "out_of_range",
            DecodeError::UnknownKind => "unknown_kind",
            DecodeError::OutOfMemory => "out_of_memory",
        }
    }
}
