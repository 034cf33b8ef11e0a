//! What a command prints of a script: its report, or something about what it finds in the script.

ghost use Rattle.std.specs.Prelude.{◌≡◌, ◌^◌, ◌<◌, List, Option, ℕ, IfErr, IfOk, Some, length};
ghost use Rattle.cdc_commands.specs.Outcomes.{IsSimulationFault};
ghost use Rattle.cdc_commands.specs.SimulationReports.{ComesTo};
ghost use Rattle.cdc_commands.specs.Simulations.{Plan};
ghost use Rattle.cdc_script.specs.declared.scripts.Script.{Script as Parsed};
ghost use Rattle.cdc_world.specs.declared.steps.StepError.{StepError as Refusal};

use crate::forms::Form;
use crate::observers::Observer;
use crate::simulations::Simulated;
use cdc_output::ProgramFault;
use cdc_script::Script;
use std::alloc::{AllocError, Global};

/// What is printed of a script, after something was found in it.
pub trait Content {
    /// What has to be found in the script before anything is done.
    type Found: Drop;

    /// This is found in a script, or nothing.
    ghost finds: { Self → Parsed → Option Self.Found → Type 0 };

    /// Finds it. `None` if the script doesn't have it, which is a usage error.
    fn find(&self, alloc: Global, script: &Script) -> Result<Option<Self::Found>, AllocError>
        ensures { IfOk result (λ found. finds self.now script.now found) };
}

/// What `simulate` prints, in forms of type `F`, of a simulation that an observer of type `O` has seen.
pub trait SimulationContent<F, O: Observer>: Content {
    /// This may be printed for a plan, one of whose steps was refused for this reason, or none.
    ghost prints_plan: { Self → Plan → Option Refusal → List ℕ → Type 0 };

    /// Prints a simulation of `all` acts, over a script in which this was found. Fails if memory runs out, or ran out
    /// while the observer saw it.
    fn print(
        &self,
        form: &F,
        alloc: Global,
        found: &Self::Found,
        simulated: &Simulated,
        all: usize,
        observer: &O,
    ) -> Result<Vec<u8>, ProgramFault>
        requires { simulated.now.played.done < 2 ^ 63 }
        ensures text { (plan : Plan) → all ≡ length plan.acts → Self.finds self.now plan.script (Some found.now)
            → (come : ComesTo plan simulated.now) → O.has_seen observer.now come.end.seen
            → IfOk result (λ text. prints_plan self.now plan simulated.now.played.refusal text.items) }
        ensures fault { IfErr result IsSimulationFault };
}

/// The report of a command, for which nothing has to be found.
#[derive(Clone, Copy)]
pub struct Report;

impl Content for Report {
    ghost use Rattle.std.specs.Prelude.{◌≡◌, is_some, true};

    type Found = ();

    ghost finds = { λ report script found. is_some found ≡ true };

    fn find(&self, _alloc: Global, _script: &Script) -> Result<Option<()>, AllocError> {
        Ok(Some(()))
    }
}

impl<F: Form, O: Observer> SimulationContent<F, O> for Report {
    ghost prints_plan = { λ report. F.prints_simulation };

    fn print(
        &self,
        form: &F,
        alloc: Global,
        _found: &(),
        simulated: &Simulated,
        all: usize,
        _observer: &O,
    ) -> Result<Vec<u8>, ProgramFault> {
        Ok(form.simulation(alloc, simulated, all)?)
    }
}
