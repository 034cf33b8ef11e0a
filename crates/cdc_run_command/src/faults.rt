//! The fault of the program that corresponds to that of a run.

ghost use Rattle.std.specs.Prelude.{◌≡◌};
ghost use Rattle.cdc_run_command.specs.Private.Faults.{run_fault};

use cdc_actors::RunFault;
use cdc_output::ProgramFault;

/// Why a run failed, as the fault of the program.
pub fn fault_of_run(fault: RunFault) -> ProgramFault
    ensures { result ≡ run_fault fault }
{
    match fault {
        RunFault::PeerGone => ProgramFault::PeerGone,
        RunFault::OutOfMemory => ProgramFault::OutOfMemory,
        RunFault::Store(error) => ProgramFault::from(error),
        RunFault::SessionsExhausted => ProgramFault::SessionsExhausted,
        RunFault::NotOneSystem => ProgramFault::NotOneSystem,
        RunFault::StartNotAllowed => ProgramFault::StartNotAllowed,
    }
}
