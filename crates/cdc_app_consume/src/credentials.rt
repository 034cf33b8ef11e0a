//! The password, which is never an argument.

use cdc_app_inputs::Escaped;
use cdc_files::{fill, open_plain};
use std::env::VarError;
use std::io::ErrorKind;
use std::{env, io};

/// The variable that has the password, if no file is named.
const VARIABLE: &str = "RELAYPLUM_PASSWORD";

/// The bytes of a password's file that are read, at most: one more than a password has, and its line feed.
const READ_BYTES: usize = 65_537;

/// Why a command didn't begin: the exit status, and the name of the reason.
#[derive(Clone, Copy)]
pub struct Refusal {
    pub status: u8,
    pub reason: &'static str,
}

/// There is no password, or it isn't right.
pub const BAD_CREDENTIALS: Refusal = Refusal {
    status: 2,
    reason: "credentials",
};

/// Memory ran out.
pub const NO_MEMORY: Refusal = Refusal {
    status: 1,
    reason: "out_of_memory",
};

/// A read failed.
pub const NOT_READ: Refusal = Refusal {
    status: 1,
    reason: "read_fault",
};

/// The password: the first line of this file, or the value of the variable. After an error standard error has the reason,
/// which never has the password.
pub fn password(rt: &HostRuntime, file: Option<&str>) -> Result<Vec<u8>, Refusal> {
    match file {
        Some(path) => match read_first_line(rt, path) {
            Ok(line) => Ok(line),
            Err(error) => {
                let path = Escaped(path);
                let _ = eprintln!(rt; "{path}: the password can't be read: {error}");
                Err(refusal_of(error))
            }
        },
        None => read_variable(rt),
    }
}

/// Why a command doesn't begin whose password can't be read.
fn refusal_of(error: io::Error) -> Refusal {
    match error.kind() {
        ErrorKind::NotFound | ErrorKind::PermissionDenied | ErrorKind::InvalidInput =>
            BAD_CREDENTIALS,
        ErrorKind::OutOfMemory => NO_MEMORY,
        _ => NOT_READ,
    }
}

/// The first line of a file, without its line feed.
fn read_first_line(rt: &HostRuntime, path: &str) -> io::Result<Vec<u8>> {
    let Some(mut file) = open_plain(rt, path)? else {
        return Err(io::Error::from(ErrorKind::NotFound));
    };
    let mut bytes = Vec::new(rt.alloc());
    let Ok(()) = bytes.resize(READ_BYTES, 0u8) else {
        return Err(io::Error::from(ErrorKind::OutOfMemory));
    };
    let count = fill(&mut file, bytes.as_mut_slice())?;
    let end = bytes.as_slice()[..count]
        .iter()
        .position(|byte| *byte == b'\n')
        .unwrap_or(count);
    bytes.truncate(end);
    Ok(bytes)
}

/// The value of the variable.
fn read_variable(rt: &HostRuntime) -> Result<Vec<u8>, Refusal> {
    match env::var(rt, VARIABLE) {
        Ok(value) => match Vec::from_slice(rt.alloc(), value.as_bytes()) {
            Ok(bytes) => Ok(bytes),
            Err(_) => Err(refuse_memory(rt)),
        },
        Err(VarError::NotPresent) => {
            let _ = eprintln!(rt;
                "relayplum: no password: --password-file names its file, or the variable {VARIABLE} has it"
            );
            Err(BAD_CREDENTIALS)
        }
        Err(VarError::OutOfMemory) => Err(refuse_memory(rt)),
        Err(error) => {
            let _ = eprintln!(rt; "relayplum: the variable {VARIABLE} can't be read: {error}");
            Err(BAD_CREDENTIALS)
        }
    }
}

/// Reports that memory ran out.
fn refuse_memory(rt: &HostRuntime) -> Refusal {
    let _ = eprintln!(rt; "relayplum: out_of_memory: no memory was left");
    NO_MEMORY
}
