//! The text form of what commands print.

ghost use Rattle.std.specs.Prelude.{◌≡◌, IfOk};
ghost use Rattle.cdc_commands.specs.BookReports.{IsBooksOf};
ghost use Rattle.cdc_commands.specs.Printed.{printed_books};
ghost use Rattle.cdc_commands.specs.Report.{file_fault_line};
ghost use Rattle.cdc_script.specs.declared.scripts.Script.{Script as Parsed};

use crate::book_reports::BooksReport;
use crate::endings::Ending;
use crate::event_lines::event_lines;
use crate::forms::Form;
use crate::report::{push_answers, push_file_fault, push_subscribers};
use crate::simulation_report::print_simulated;
use crate::simulations::Simulated;
use cdc_log::EventLog;
use cdc_match::Binding;
use cdc_output::Text;
use cdc_script::ScriptFault;
use std::alloc::{AllocError, Global};

impl Form for Text {
    ghost use Rattle.std.specs.Prelude.{◌≡◌};
    ghost use Rattle.cdc_commands.specs.Printed.{printed_books, printed_messages};
    ghost use Rattle.cdc_commands.specs.Report.{IsFaultLine};
    ghost use Rattle.cdc_commands.specs.Simulations.{Simulates};

    ghost prints_books = { λ script printed. printed ≡ printed_books script };

    ghost prints_messages = { λ script printed. printed ≡ printed_messages script };

    ghost prints_simulation = { Simulates };

    ghost prints_fault = { λ word. IsFaultLine };

    fn books(&self, alloc: Global, report: &BooksReport) -> Result<Vec<u8>, AllocError> {
        print_books(alloc, report)
    }

    fn messages(
        &self,
        alloc: Global,
        log: &EventLog,
        _bindings: &[Binding],
    ) -> Result<Vec<u8>, AllocError> {
        Ok(event_lines(alloc, log)?.into_bytes())
    }

    fn simulation(
        &self,
        alloc: Global,
        simulated: &Simulated,
        all: usize,
    ) -> Result<Vec<u8>, AllocError> {
        print_simulated(alloc, simulated, all)
    }

    fn script_fault(
        &self,
        alloc: Global,
        _script: &[u8],
        fault: ScriptFault,
    ) -> Result<Vec<u8>, AllocError> {
        fault_line(alloc, Ending::BadScript(fault))
    }

    fn steps_fault(
        &self,
        alloc: Global,
        _steps: &[u8],
        fault: ScriptFault,
    ) -> Result<Vec<u8>, AllocError> {
        fault_line(alloc, Ending::BadSteps(fault))
    }

    ghost prints_its_fault = { λ fault line is. is };
}

fn print_books(alloc: Global, report: &BooksReport) -> Result<Vec<u8>, AllocError>
    ensures { (script : Parsed) → IsBooksOf script report.now
        → IfOk result (λ text. text.items ≡ printed_books script) }
{
    let mut lines = String::new(alloc);
    push_answers(&mut lines, report.answers.as_slice())?;
    let mut text = lines.into_bytes();
    push_subscribers(&mut text, report.subscribers.as_slice())?;
    Ok(text)
}

/// The line for the fault of a file that a command ends with.
fn fault_line(alloc: Global, ending: Ending) -> Result<Vec<u8>, AllocError>
    ensures { IfOk result (λ text. text.items ≡ file_fault_line ending) }
{
    let mut text = String::new(alloc);
    push_file_fault(&mut text, ending)?;
    Ok(text.into_bytes())
}
