//! What is reported of a call, and why it may not be made.

use crate::tries::Tried;
use std::alloc::AllocError;
use std::io;

/// Why the program didn't do what it was asked for.
#[derive(Clone, Copy)]
pub enum CallsFault {
    /// There was no memory for the arguments, or the value wasn't made.
    NotMade,
    /// The last call was refused.
    Refused,
    /// The arguments name no call.
    BadWords,
    /// A write to standard output or standard error failed.
    NotReported,
}

impl From<io::Error> for CallsFault {
    fn from(_error: io::Error) -> CallsFault {
        CallsFault::NotReported
    }
}

impl From<AllocError> for CallsFault {
    fn from(_error: AllocError) -> CallsFault {
        CallsFault::Refused
    }
}

impl CallsFault {
    /// The exit status.
    pub fn status(self) -> u8 {
        match self {
            CallsFault::NotMade => 2,
            CallsFault::Refused => 4,
            CallsFault::BadWords => 8,
            CallsFault::NotReported => 9,
        }
    }
}

/// Reports that the value was made. From here on the allocations are the call's own.
pub fn made<T: Drop>(rt: &HostRuntime, value: Option<T>) -> Result<T, CallsFault> {
    let Some(value) = value else {
        return Err(CallsFault::NotMade);
    };
    eprintln!(rt; "made")?;
    Ok(value)
}

/// Prints the number of refused calls. Returns what the last call gave, if it wasn't refused.
pub fn report<T: Drop>(rt: &HostRuntime, tried: Tried<T>) -> Result<T, CallsFault> {
    let Tried { last, refused } = tried;
    println!(rt; "refused {refused}")?;
    Ok(last?)
}
