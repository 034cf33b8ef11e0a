//! The faults of scripts and step files.

ghost use Rattle.std.specs.Prelude.{◌≡◌};
ghost use Rattle.cdc_script.specs.Faults.{kind_number, kind_name};

use cdc_match::BindError;
use std::alloc::AllocError;
use std::io;
use thiserror::Error;

/// The kind of a fault of a script or a step file. The variants are in the order of their numbers.
#[derive(Clone, Copy, Debug)]
pub enum FaultKind {
    /// A byte is neither a printable ASCII character nor part of a line ending.
    BadText,
    /// The first word of a line isn't one that begins a line.
    UnknownWord,
    /// A word is missing, or there is one too many.
    WrongCount,
    /// A word has to be a number and isn't one or more digits.
    BadNumber,
    /// A number exceeds the greatest one of its field.
    NumberOutOfRange,
    /// A word isn't `key=value`, or its key isn't one of the line.
    UnknownKey,
    /// An earlier word of the line gives the same key.
    KeyTwice,
    /// No batch of the item's kind is open.
    NoOpenBatch,
    /// The words after `subscriber` aren't a binding.
    BadBinding,
    /// The script has more than `Limits::SUBSCRIBERS` subscribers.
    TooManySubscribers,
    /// A client's number isn't from 1 to `Limits::CLIENTS`.
    BadClient,
    NoSubscriber,
    /// The file has more than `Limits::SCRIPT_BYTES` bytes.
    TooLong,
}

impl FaultKind {
    /// The fault's number, from 1.
    pub fn number(self) -> u8
        ensures { result ≡ kind_number self }
    {
        self as u8 + 1
    }

    /// The name that is printed.
    pub fn name(self) -> &'static str
        ensures { result.now ≡ kind_name self }
    {
        match self {
            FaultKind::BadText => "bad_text",
            FaultKind::UnknownWord => "unknown_word",
            FaultKind::WrongCount => "wrong_count",
            FaultKind::BadNumber => "bad_number",
            FaultKind::NumberOutOfRange => "number_out_of_range",
            FaultKind::UnknownKey => "unknown_key",
            FaultKind::KeyTwice => "key_twice",
            FaultKind::NoOpenBatch => "no_open_batch",
            FaultKind::BadBinding => "bad_binding",
            FaultKind::TooManySubscribers => "too_many_subscribers",
            FaultKind::BadClient => "bad_client",
            FaultKind::NoSubscriber => "no_subscriber",
            FaultKind::TooLong => "too_long",
        }
    }
}

/// The location of some bytes of a text.
#[derive(Clone, Copy, Debug)]
pub struct Span {
    /// The offset of the first byte, from 0.
    pub start: u32,
    /// The number of bytes.
    pub length: u32,
}

/// Which line has ended a batch.
#[derive(Clone, Copy, Debug)]
pub enum BatchEnd {
    /// A subscriber's.
    Subscriber,
    /// A line `client N`: the batches below it are that client's.
    Client,
    /// A batch by itself.
    Pulse,
}

/// What a fault refers to besides its word.
#[derive(Clone, Copy, Debug)]
pub enum Detail {
    Plain,
    /// The word of the line that gives the key already.
    GivenBy(Span),
    /// The open batch is of the other kind. It began at the line of this number.
    BatchBegan(u32),
    /// The line that ended the last batch, by its number, and which line it is.
    BatchEnded(u32, BatchEnd),
    /// The error of a binding.
    NoBinding(BindError),
}

/// A fault of a line.
#[derive(Clone, Copy, Debug)]
pub struct LineFault {
    /// The word at fault. `None` if a word is missing after the last one.
    pub word: Option<Span>,
    pub kind: FaultKind,
    pub detail: Detail,
}

/// Why reading a line failed.
#[derive(Clone, Copy)]
pub enum LineError {
    /// The line has a fault.
    Fault(LineFault),
    OutOfMemory,
}

impl From<LineFault> for LineError {
    ghost use Rattle.cdc_script.specs.declared.faults.LineError.TheVariants.{Fault};

    ghost from_gives = { λ fault e. e ≡ Fault fault };

    fn from(fault: LineFault) -> LineError {
        LineError::Fault(fault)
    }
}

impl From<AllocError> for LineError {
    ghost use Rattle.cdc_script.specs.declared.faults.LineError.TheVariants.{OutOfMemory};

    ghost from_gives = { λ _ e. e ≡ OutOfMemory };

    fn from(_error: AllocError) -> LineError {
        LineError::OutOfMemory
    }
}

/// A fault of a script or a step file, and its location.
#[derive(Clone, Copy, Debug)]
pub struct ScriptFault {
    /// The line, from 1. 0 if the fault is of the file as a whole, which has no word at fault.
    pub line: u64,
    /// The column of the word at fault, in bytes from 1. 0 if the fault is of the file as a whole.
    pub column: u64,
    /// The word at fault, or its first letter that isn't printable ASCII, if it has one. If a word is missing, an
    /// empty span at its location.
    pub word: Span,
    /// The first word of the line.
    pub first: Span,
    pub kind: FaultKind,
    pub detail: Detail,
}

/// Why a text isn't a script or a step file.
#[derive(Clone, Copy, Debug, Error)]
pub enum ScriptError {
    /// The text has a fault.
    #[error("line {}: {}", .0.line, .0.kind.name())]
    Fault(ScriptFault),
    #[error("out_of_memory")]
    OutOfMemory,
}

impl From<AllocError> for ScriptError {
    ghost use Rattle.cdc_script.specs.declared.faults.ScriptError.TheVariants.{OutOfMemory};

    ghost from_gives = { λ _ e. e ≡ OutOfMemory };

    fn from(_error: AllocError) -> ScriptError {
        ScriptError::OutOfMemory
    }
}

/// Why reading a file failed.
#[derive(Clone, Copy, Debug, Error)]
pub enum ReadError {
    /// The reader returned an error.
    #[error("read_fault: {0}")]
    ReadFault(io::Error),
    #[error("out_of_memory")]
    OutOfMemory,
}

impl From<AllocError> for ReadError {
    ghost use Rattle.cdc_script.specs.declared.faults.ReadError.TheVariants.{OutOfMemory};

    ghost from_gives = { λ _ e. e ≡ OutOfMemory };

    fn from(_error: AllocError) -> ReadError {
        ReadError::OutOfMemory
    }
}
