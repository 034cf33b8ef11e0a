//! Why a command fails.

ghost use Rattle.std.specs.Prelude.{◌≡◌};
ghost use Rattle.cdc_output.specs.Faults.{program_fault_line};

use cdc_files::StoreError;
use cdc_script::ReadError;
use std::alloc::AllocError;
use std::io;
use thiserror::Error;

/// Why a command failed.
#[derive(Clone, Copy, Debug, Error)]
pub enum ProgramFault {
    /// A read failed, or a file can't be opened.
    #[error("read_fault: {0}")]
    ReadFault(io::Error),
    /// A write failed. Nothing is written after it.
    #[error("write_fault: {0}")]
    WriteFault(io::Error),
    /// The progress store failed.
    #[error("store: {}", .0.name())]
    Store(StoreError),
    /// Memory ran out, or a thread couldn't be started.
    #[error("out_of_memory")]
    OutOfMemory,
    /// An actor of a run was gone while another one communicated with it.
    #[error("peer_gone")]
    PeerGone,
    /// There is no further number for a session.
    #[error("sessions_exhausted")]
    SessionsExhausted,
    /// A run was given a start, although progress was saved already.
    #[error("start_not_allowed")]
    StartNotAllowed,
    /// The actors of a run weren't those of one system.
    #[error("not_one_system")]
    NotOneSystem,
}

impl ProgramFault {
    /// The line that a failed command prints, with its line feed.
    pub fn line(self) -> &'static str
        ensures { result.now ≡ program_fault_line self }
    {
        match self {
            ProgramFault::ReadFault(_) => "fault: read_fault\n",
            ProgramFault::WriteFault(_) => "fault: write_fault\n",
            ProgramFault::Store(_) => "fault: store\n",
            ProgramFault::OutOfMemory => "fault: out_of_memory\n",
            ProgramFault::PeerGone => "fault: peer_gone\n",
            ProgramFault::SessionsExhausted => "fault: sessions_exhausted\n",
            ProgramFault::StartNotAllowed => "fault: start_not_allowed\n",
            ProgramFault::NotOneSystem => "fault: not_one_system\n",
        }
    }
}

impl From<StoreError> for ProgramFault {
    ghost use Rattle.cdc_output.specs.Faults.{store_fault};

    ghost from_gives = { λ why e. e ≡ store_fault why };

    fn from(error: StoreError) -> ProgramFault {
        match error {
            StoreError::OutOfMemory => ProgramFault::OutOfMemory,
            _ => ProgramFault::Store(error),
        }
    }
}

impl From<AllocError> for ProgramFault {
    ghost use Rattle.cdc_output.specs.declared.faults.ProgramFault.TheVariants.{OutOfMemory};

    ghost from_gives = { λ _ e. e ≡ OutOfMemory };

    fn from(_error: AllocError) -> ProgramFault {
        ProgramFault::OutOfMemory
    }
}

impl From<ReadError> for ProgramFault {
    ghost use Rattle.cdc_output.specs.Faults.{read_fault};

    ghost from_gives = { λ why e. e ≡ read_fault why };

    fn from(error: ReadError) -> ProgramFault {
        match error {
            ReadError::ReadFault(error) => ProgramFault::ReadFault(error),
            ReadError::OutOfMemory => ProgramFault::OutOfMemory,
        }
    }
}
