//! The three standard descriptors.

use std::fs::OpenOptions;
use std::io;
use std::os::unix::io::{AsRawFd, IntoRawFd};

/// What a standard descriptor refers to that was closed.
const NOTHING: &str = "/dev/null";

/// The number of standard output.
const OUTPUT: i32 = 1;

/// The greatest number of a standard descriptor, which is standard error's.
const GREATEST: i32 = 2;

/// Opens each standard descriptor that is closed. Otherwise the next file that is opened, such as a book, would get its
/// number, and what is printed would be written into that file. Whether standard output was open.
pub fn open_standard(rt: &HostRuntime) -> io::Result<bool> {
    let mut has_output = true;
    for _ in 0..=GREATEST {
        let file = OpenOptions::new().read(true).write(true).open(rt, NOTHING)?;
        if file.as_raw_fd() > GREATEST {
            return Ok(has_output);
        }
        if file.into_raw_fd() == OUTPUT {
            has_output = false;
        }
    }
    Ok(has_output)
}
