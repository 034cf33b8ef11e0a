//! Why a run of a script has no report.

ghost use Rattle.std.specs.Prelude.{◌≡◌};
ghost use Rattle.cdc_run_command.specs.Failed.{failed_of};

use crate::faults::fault_of_run;
use cdc_output::ProgramFault;
use cdc_progress::ProgressStore;
use cdc_run::{Failure, Met, Place};
use cdc_script::ReadError;
use std::alloc::AllocError;

/// Why a run of a script has no report.
#[derive(Clone, Copy)]
pub struct RunFailed {
    pub fault: ProgramFault,
    /// The place of the actor that met it, and why that one stopped. None if no actor did.
    pub stop: Option<(Place, Met)>,
}

impl RunFailed {
    /// Why a run has no report, as the program reports it.
    pub(crate) fn of<S: ProgressStore>(failure: &Failure<S>) -> RunFailed
        ensures { result ≡ failed_of failure.now }
    {
        match failure {
            Failure::OutOfMemory => RunFailed {
                fault: ProgramFault::OutOfMemory,
                stop: None,
            },
            Failure::Stopped { place, met, .. } => RunFailed {
                fault: fault_of_run(met.fault()),
                stop: Some((*place, *met)),
            },
        }
    }
}

impl From<AllocError> for RunFailed {
    ghost use Rattle.std.specs.Prelude.{◌≡◌};
    ghost use Rattle.cdc_run_command.specs.Failed.{no_memory};

    ghost from_gives = { λ _ e. e ≡ no_memory };

    fn from(_error: AllocError) -> RunFailed {
        RunFailed {
            fault: ProgramFault::OutOfMemory,
            stop: None,
        }
    }
}

impl From<ReadError> for RunFailed {
    ghost use Rattle.std.specs.Prelude.{◌≡◌};
    ghost use Rattle.cdc_run_command.specs.Failed.{unread};

    ghost from_gives = { λ why e. e ≡ unread why };

    fn from(error: ReadError) -> RunFailed {
        RunFailed {
            fault: ProgramFault::from(error),
            stop: None,
        }
    }
}
