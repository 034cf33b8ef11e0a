//! How the lines of a stream are read: those of a regular file directly, all others ahead, by a thread.

use crate::failures::print_failure;
use crate::recent::Recent;
use cdc_arguments::Form;
use cdc_output::ProgramFault;
use cdc_read_ahead::{AheadReader, StartFault, Unknown};
use cdc_types::Limits;
use std::alloc::Global;
use std::io::{BufReader, Read};
use std::sync::Wait;
use std::thread::Threads;

/// The lines of a stream.
pub enum Lines<S, T: Threads + Wait + Copy> {
    /// Those of a regular file, which are always there.
    Plain(Recent<BufReader<S>>),
    /// Those of a pipe or the like, which another thread reads.
    Ahead(Recent<AheadReader<Unknown, T>>),
}

/// The lines of this source, which is read ahead if a read of it may have to wait.
pub fn lines_of<S: Read + Drop + Send + 'static, T: Threads + Wait + Copy + Send + 'static>(
    threads: &T,
    alloc: Global,
    source: S,
    may_wait: bool,
) -> Result<Lines<S, T>, StartFault> {
    if may_wait {
        let reader = AheadReader::start(*threads, alloc, source)?;
        return Ok(Lines::Ahead(Recent::new(alloc, reader)?));
    }
    match BufReader::with_capacity(alloc, Limits::BUFFER_BYTES, source) {
        Ok(reader) => Ok(Lines::Plain(Recent::new(alloc, reader)?)),
        Err(_) => Err(StartFault::OutOfMemory),
    }
}

/// Prints the fault of a command that can't begin to read, and reports why on standard error.
pub fn refuse_reading(rt: &HostRuntime, fault: StartFault, form: Form) -> ProgramFault {
    print_failure(rt, form, ProgramFault::OutOfMemory);
    refuse_start(rt, fault);
    ProgramFault::OutOfMemory
}

/// Reports on standard error why a command can't begin to read.
pub fn refuse_start(rt: &HostRuntime, fault: StartFault) {
    let why = match fault {
        StartFault::OutOfMemory => "no memory was left",
        StartFault::ThreadRefused => "no thread could be started",
    };
    let _ = eprintln!(rt; "relayplum: out_of_memory: {why}");
}
