//! Forms in which `run` prints its report.

ghost use Rattle.std.specs.Prelude.{List, ℕ, IfOk};
ghost use Rattle.cdc_run.specs.Reports.{replies_of};
ghost use Rattle.cdc_run.specs.declared.reports.Report.{Report as Reported};
ghost use Rattle.cdc_run_command.specs.ClientOrders.{IsOrderOf};

use crate::reports::Ran;
use crate::run_objects::print_run_objects;
use crate::run_report::print_run;
use cdc_commands::Form;
use cdc_output::{Json, Text};
use std::alloc::{AllocError, Global};

/// A form in which `run` can print its report.
pub trait RunForm: Form {
    /// `run` prints this of a report on batches that these clients submitted, in this order.
    ghost prints_run: { List ℕ → Reported → List ℕ → Type 0 };

    /// What `run` prints of a run. Fails if it is out of memory.
    fn run(&self, alloc: Global, ran: &Ran) -> Result<Vec<u8>, AllocError>
        requires { IsOrderOf ran.now.owners.items (replies_of ran.now.report) }
        ensures { IfOk result (λ text. prints_run ran.now.owners.items ran.now.report text.items) };
}

impl RunForm for Text {
    ghost use Rattle.cdc_run_command.specs.Runs.{PrintsReport};

    ghost prints_run = { PrintsReport };

    fn run(&self, alloc: Global, ran: &Ran) -> Result<Vec<u8>, AllocError> {
        print_run(alloc, ran)
    }
}

impl RunForm for Json {
    ghost use Rattle.cdc_run_command.specs.RunObjects.{ReportsRun};

    ghost prints_run = { ReportsRun };

    fn run(&self, alloc: Global, ran: &Ran) -> Result<Vec<u8>, AllocError> {
        print_run_objects(alloc, ran)
    }
}
