//! The forms in which a command prints what it reports.

ghost use Rattle.std.specs.Prelude.{◌≡◌, ◌^◌, ◌<◌, [], List, Option, ℕ, IfOk, OnErr, length};
ghost use Rattle.cdc_commands.specs.declared.endings.Ending.{Ending as EndsSo};
ghost use Rattle.cdc_commands.specs.FaultWords.{bytes_at};
ghost use Rattle.cdc_commands.specs.BookReports.{IsBooksOf};
ghost use Rattle.cdc_commands.specs.Printed.{history_of};
ghost use Rattle.cdc_commands.specs.SimulationReports.{ComesTo};
ghost use Rattle.cdc_commands.specs.Simulations.{Plan};
ghost use Rattle.cdc_ledger.specs.Events.{events};
ghost use Rattle.cdc_output.specs.declared.faults.ProgramFault.{ProgramFault as Failure};
ghost use Rattle.cdc_script.specs.declared.scripts.Script.{Script as Parsed};
ghost use Rattle.cdc_world.specs.declared.steps.StepError.{StepError as Refusal};

use crate::book_reports::BooksReport;
use crate::simulations::Simulated;
use cdc_log::EventLog;
use cdc_match::Binding;
use cdc_output::FaultForm;
use cdc_script::ScriptFault;
use std::alloc::{AllocError, Global};

/// A form in which commands print what they report: lines of text, or JSON objects.
pub trait Form: FaultForm {
    /// What `books` may print for a script.
    ghost prints_books: { Parsed → List ℕ → Type 0 };

    /// What `messages` may print for a script.
    ghost prints_messages: { Parsed → List ℕ → Type 0 };

    /// What `simulate` may print for a plan, one of whose steps was refused for this reason, or none.
    ghost prints_simulation: { Plan → Option Refusal → List ℕ → Type 0 };

    /// What may be printed for the fault that a command ends with: for that of a file, whose word in error has these
    /// bytes, or for a failure, which has none.
    ghost prints_fault: { List ℕ → EndsSo → List ℕ → Type 0 };

    /// Prints the report of `books`.
    fn books(&self, alloc: Global, report: &BooksReport) -> Result<Vec<u8>, AllocError>
        ensures { (script : Parsed) → IsBooksOf script report.now
            → IfOk result (λ text. prints_books script text.items) };

    /// Prints the events of a ledger for `messages`, of a script with these bindings. Without events this needs no
    /// memory.
    fn messages(
        &self,
        alloc: Global,
        log: &EventLog,
        bindings: &[Binding],
    ) -> Result<Vec<u8>, AllocError>
        ensures text { (script : Parsed) → log.now.events ≡ events (history_of script)
            → bindings.now ≡ script.bindings → IfOk result (λ text. prints_messages script text.items) }
        ensures memory { OnErr result (0 < length log.now.events) };

    /// Prints a simulation of `all` acts for `simulate`.
    fn simulation(
        &self,
        alloc: Global,
        simulated: &Simulated,
        all: usize,
    ) -> Result<Vec<u8>, AllocError>
        requires { simulated.now.played.done < 2 ^ 63 }
        ensures { (plan : Plan) → all ≡ length plan.acts → ComesTo plan simulated.now
            → IfOk result (λ text. prints_simulation plan simulated.now.played.refusal text.items) };

    /// The line for a fault in a script with these bytes.
    fn script_fault(
        &self,
        alloc: Global,
        script: &[u8],
        fault: ScriptFault,
    ) -> Result<Vec<u8>, AllocError>
        ensures { IfOk result (λ text. prints_fault (bytes_at script.now fault.word)
            (EndsSo.BadScript fault) text.items) };

    /// The line for a fault in a step file with these bytes.
    fn steps_fault(
        &self,
        alloc: Global,
        steps: &[u8],
        fault: ScriptFault,
    ) -> Result<Vec<u8>, AllocError>
        ensures { IfOk result (λ text. prints_fault (bytes_at steps.now fault.word)
            (EndsSo.BadSteps fault) text.items) };

    /// What is printed of a failure is what may be printed for the fault that a command ends with.
    ghost prints_its_fault: { (fault : Failure) (line : List ℕ) → Self.prints_failure fault line
        → prints_fault [] (EndsSo.Failed fault) line };
}
