//! Why reading ahead didn't start.

use cdc_links::LinkFault;
use std::alloc::AllocError;
use thiserror::Error;

/// Why reading ahead didn't start. The reader is dropped.
#[derive(Clone, Copy, Debug, PartialEq, Eq, Error)]
pub enum StartFault {
    /// There was no memory for the link or for the buffer.
    #[error("out of memory")]
    OutOfMemory,
    /// The thread that reads couldn't be started.
    #[error("the reading thread can't be started")]
    ThreadRefused,
}

impl From<AllocError> for StartFault {
    ghost use Rattle.std.specs.Prelude.{◌≡◌};
    ghost use Rattle.cdc_read_ahead.specs.declared.errors.StartFault.TheVariants.{OutOfMemory};

    ghost from_gives = { λ _ e. e ≡ OutOfMemory };

    fn from(_error: AllocError) -> StartFault {
        StartFault::OutOfMemory
    }
}

impl From<LinkFault> for StartFault {
    ghost use Rattle.std.specs.Prelude.{◌≡◌};
    ghost use Rattle.cdc_read_ahead.specs.declared.errors.StartFault.TheVariants.{OutOfMemory};

    ghost from_gives = { λ _ e. e ≡ OutOfMemory };

    // A new link fails only for memory.
    fn from(_error: LinkFault) -> StartFault {
        StartFault::OutOfMemory
    }
}
