//! How a command over a stream ends.

ghost use Rattle.std.specs.Prelude.{◌≡◌, ◌≢◌};
ghost use Rattle.std.specs.IoError.{error_kind};
ghost use Rattle.cdc_streams.specs.Endings.{failed_status};

use cdc_files::StoreError;
use cdc_follow::FollowError;
use cdc_output::ProgramFault;
use std::io;
use std::io::ErrorKind;

/// How a command over a stream ended.
#[derive(Clone, Copy)]
pub enum StreamEnding<S> {
    /// It stopped, at the end or before it, for this reason. What was read before is taken, printed and saved.
    Stopped(S),
    /// The command failed.
    Failed(ProgramFault),
}

/// The exit status of a command that failed: 2 if what its store holds isn't what was asked for, so that it fails again
/// when it is started again; 1 otherwise, since the failure may pass.
pub fn failure_status(fault: ProgramFault) -> u8
    ensures { result ≡ failed_status fault }
{
    match fault {
        ProgramFault::Store(StoreError::BadRecord) => 2,
        _ => 1,
    }
}

/// The program's fault for a failure of reading.
pub fn fault_of(error: FollowError) -> ProgramFault
    ensures memory { error ≡ FollowError.OutOfMemory → result ≡ ProgramFault.OutOfMemory }
    ensures reader_memory { (why : _) → error ≡ FollowError.Read why → error_kind why ≡ ErrorKind.OutOfMemory
        → result ≡ ProgramFault.OutOfMemory }
    ensures read { (why : _) → error ≡ FollowError.Read why → error_kind why ≢ ErrorKind.OutOfMemory
        → result ≡ ProgramFault.ReadFault why }
{
    match error {
        FollowError::Read(error) => fault_of_reader(error),
        FollowError::OutOfMemory => ProgramFault::OutOfMemory,
    }
}

/// The program's fault for a failure of a reader. One that reads ahead may have run out of memory.
fn fault_of_reader(error: io::Error) -> ProgramFault
    ensures memory { error_kind error ≡ ErrorKind.OutOfMemory → result ≡ ProgramFault.OutOfMemory }
    ensures read { error_kind error ≢ ErrorKind.OutOfMemory → result ≡ ProgramFault.ReadFault error }
{
    if error.kind() == ErrorKind::OutOfMemory {
        ProgramFault::OutOfMemory
    } else {
        ProgramFault::ReadFault(error)
    }
}
