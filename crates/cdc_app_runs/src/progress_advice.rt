//! What is wrong with a progress file, and what to do.

use cdc_progress::StoreError;
use cdc_types::Limits;
use std::fs;
use std::fs::File;
use std::io::Read;

const RECORD_BYTES: usize = Limits::PROGRESS_BYTES;

/// What is wrong with the file of this name, for which a store has reported this error, and what to do.
pub fn trouble(rt: &HostRuntime, saved: &str, error: StoreError) -> &'static str {
    match error {
        StoreError::ReadFault => unread(rt, saved),
        StoreError::WriteFault => {
            "the record can't be written: the file and its folder have to be writable, no other run may have the file, \
             and a file at its name with .new appended has to be what a save left"
        }
        StoreError::BadRecord => no_record(rt, saved),
        StoreError::OutOfMemory => "no memory was left",
    }
}

/// What is wrong with a file that can't be read.
fn unread(rt: &HostRuntime, saved: &str) -> &'static str {
    // (it isn't opened, since opening a pipe waits for a writer)
    match fs::metadata(rt, saved) {
        Ok(data) if data.is_file() => {
            "it can't be read, or another run has it: let that one end, or name another file"
        }
        Ok(_) => "it is no regular file: name another one",
        Err(_) => {
            "it can't be opened: name a file that can be read, or one that isn't there in a folder that is"
        }
    }
}

/// What is wrong with a file that holds no record.
fn no_record(rt: &HostRuntime, saved: &str) -> &'static str {
    let mut head = [0u8; RECORD_BYTES + 1];
    let read = File::open(rt, saved).and_then(|mut file| file.read(&mut head));
    let Ok(count) = read else {
        return "it holds no progress record: name another file";
    };
    match head.get(..count) {
        Some([]) => {
            "it is empty, and no progress record: name another file, or remove it to start from scratch"
        }
        Some(bytes) if bytes.starts_with(b"tb-cdc ") => {
            "it begins as a progress record, and isn't a whole one: restore it, or remove it to start from scratch"
        }
        _ => "it holds something else than a progress record: name another file",
    }
}
