//! The JSON form of what the commands over a script print: one object per line.

mod batches;
mod books;
mod faults;
mod simulations;

use crate::book_reports::BooksReport;
use crate::forms::Form;
use crate::simulations::Simulated;
pub use batches::push_batch;
use books::books_lines;
use cdc_log::EventLog;
use cdc_match::Binding;
use cdc_output::Json;
use cdc_queue_lines::message_lines;
use cdc_script::ScriptFault;
use faults::file_fault;
use simulations::simulation_lines;
use std::alloc::{AllocError, Global};

impl Form for Json {
    ghost use Rattle.cdc_commands.specs.JsonReports.{ReportsBooks, ReportsEnding, ReportsMessages, ReportsSimulation};

    ghost prints_books = { ReportsBooks };

    ghost prints_messages = { ReportsMessages };

    ghost prints_simulation = { ReportsSimulation };

    ghost prints_fault = { ReportsEnding };

    fn books(&self, alloc: Global, report: &BooksReport) -> Result<Vec<u8>, AllocError> {
        Ok(books_lines(alloc, report)?.into_text())
    }

    fn messages(
        &self,
        alloc: Global,
        log: &EventLog,
        bindings: &[Binding],
    ) -> Result<Vec<u8>, AllocError> {
        message_lines(alloc, log, bindings)
    }

    fn simulation(
        &self,
        alloc: Global,
        simulated: &Simulated,
        all: usize,
    ) -> Result<Vec<u8>, AllocError> {
        Ok(simulation_lines(alloc, simulated, all)?.into_text())
    }

    fn script_fault(
        &self,
        alloc: Global,
        script: &[u8],
        fault: ScriptFault,
    ) -> Result<Vec<u8>, AllocError> {
        Ok(file_fault(alloc, "script", script, fault)?.into_text())
    }

    fn steps_fault(
        &self,
        alloc: Global,
        steps: &[u8],
        fault: ScriptFault,
    ) -> Result<Vec<u8>, AllocError> {
        Ok(file_fault(alloc, "steps", steps, fault)?.into_text())
    }

    ghost prints_its_fault = { λ fault line is. is };
}
