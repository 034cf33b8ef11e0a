//! Why an actor of a run failed, or why a run has no report.

ghost use Rattle.std.specs.Prelude.{◌≡◌};
ghost use Rattle.cdc_actor_work.specs.Faults.{run_fault_name, run_fault_number};

use cdc_progress::StoreError;
use cdc_publisher::StartError;
use std::alloc::AllocError;
use thiserror::Error;

/// Why an actor of a run failed, which it returns from then on; or why the actors of a run give no report.
#[derive(Clone, Copy, Debug, PartialEq, Eq, Error)]
pub enum RunFault {
    /// The peer on a link is gone, or has sent something else than was asked for.
    #[error("peer_gone")]
    PeerGone,
    /// No memory was left, or a thread couldn't be started.
    #[error("out_of_memory")]
    OutOfMemory,
    /// The progress store failed to load or to save.
    #[error("store: {}", .0.name())]
    Store(StoreError),
    /// There is no further number for a session.
    #[error("sessions_exhausted")]
    SessionsExhausted,
    /// The actors aren't those of one system, or one of them hasn't finished.
    #[error("not_one_system")]
    NotOneSystem,
    /// A start was given to the first session, and progress was already saved.
    #[error("start_not_allowed")]
    StartNotAllowed,
}

impl RunFault {
    /// The fault's number, from 1 to 6.
    pub fn number(self) -> u8
        ensures { result ≡ run_fault_number self }
    {
        match self {
            RunFault::PeerGone => 1,
            RunFault::OutOfMemory => 2,
            RunFault::Store(_) => 3,
            RunFault::SessionsExhausted => 4,
            RunFault::NotOneSystem => 5,
            RunFault::StartNotAllowed => 6,
        }
    }

    /// The fault's name as it is printed, without the reason of a store.
    pub fn name(self) -> &'static str
        ensures { result.now ≡ run_fault_name self }
    {
        match self {
            RunFault::PeerGone => "peer_gone",
            RunFault::OutOfMemory => "out_of_memory",
            RunFault::Store(_) => "store",
            RunFault::SessionsExhausted => "sessions_exhausted",
            RunFault::NotOneSystem => "not_one_system",
            RunFault::StartNotAllowed => "start_not_allowed",
        }
    }
}

impl From<AllocError> for RunFault {
    ghost use Rattle.std.specs.Prelude.{◌≡◌};
    ghost use Rattle.cdc_actor_work.specs.declared.faults.RunFault.TheVariants.{OutOfMemory};

    ghost from_gives = { λ _ e. e ≡ OutOfMemory };

    fn from(_error: AllocError) -> RunFault {
        RunFault::OutOfMemory
    }
}

impl From<StoreError> for RunFault {
    ghost use Rattle.std.specs.Prelude.{◌≡◌};
    ghost use Rattle.cdc_actor_work.specs.Faults.{store_fault};

    ghost from_gives = { λ error e. e ≡ store_fault error };

    fn from(error: StoreError) -> RunFault {
        RunFault::from(StartError::from(error))
    }
}

impl From<StartError> for RunFault {
    ghost use Rattle.std.specs.Prelude.{◌≡◌};
    ghost use Rattle.cdc_actor_work.specs.Faults.{start_fault};

    ghost from_gives = { λ error e. e ≡ start_fault error };

    fn from(error: StartError) -> RunFault {
        match error {
            StartError::Store(why) => RunFault::Store(why),
            StartError::SessionsExhausted => RunFault::SessionsExhausted,
            StartError::OutOfMemory => RunFault::OutOfMemory,
            StartError::StartNotAllowed => RunFault::StartNotAllowed,
        }
    }
}
