//! Why a run has no report.

ghost use Rattle.std.specs.Prelude.{◌≡◌};
ghost use Rattle.cdc_run.specs.Failures.{fault_answered};

use crate::actors::Actor;
use cdc_actors::{Met, Place, RunFault, Stop};
use cdc_progress::ProgressStore;
use std::alloc::AllocError;

/// Why a run has no report.
#[derive(Drop)]
pub enum Failure<S: ProgressStore> {
    /// Memory ran out before the actors worked, or after all of them had finished.
    OutOfMemory,
    /// An actor stopped before it had finished.
    Stopped {
        /// Its place. If several stopped, the first one in the order of the places that met another fault than
        /// `PeerGone`, or the first one of all if none did.
        place: Place,
        met: Met,
        /// The outcome of each actor, in the order of the places.
        outcomes: Vec<Result<Actor<S>, Stop>>,
    },
}

impl<S: ProgressStore> Failure<S> {
    /// The fault that the run returns.
    pub fn fault(&self) -> RunFault
        ensures { result ≡ fault_answered self.now }
    {
        match self {
            Failure::OutOfMemory => RunFault::OutOfMemory,
            Failure::Stopped { met, .. } => met.fault(),
        }
    }
}

impl<S: ProgressStore> From<AllocError> for Failure<S> {
    ghost use Rattle.std.specs.Prelude.{◌≡◌};
    ghost use Rattle.cdc_run.specs.declared.failures.Failure.TheVariants.{OutOfMemory};

    ghost from_gives = { λ _ failure. failure ≡ OutOfMemory };

    fn from(_error: AllocError) -> Failure<S> {
        Failure::OutOfMemory
    }
}
