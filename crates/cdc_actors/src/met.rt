//! Why an actor of a run stopped before it had finished.

ghost use Rattle.std.specs.Prelude.{◌≡◌};
ghost use Rattle.cdc_actors.specs.Stops.{fault_met};

use cdc_actor_work::RunFault;

/// Why an actor of a run stopped before it had finished.
#[derive(Clone, Copy, Debug, PartialEq, Eq)]
pub enum Met {
    Fault(RunFault),
    /// No thread could be started for it.
    Unstarted,
}

impl Met {
    /// The fault that a run reports for it. A thread that can't be started is `OutOfMemory`.
    pub fn fault(self) -> RunFault
        ensures { result ≡ fault_met self }
    {
        match self {
            Met::Fault(fault) => fault,
            Met::Unstarted => RunFault::OutOfMemory,
        }
    }
}
