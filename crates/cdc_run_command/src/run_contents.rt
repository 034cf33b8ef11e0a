//! What `run` prints: its report, or the deliveries to one subscriber.

ghost use Rattle.std.specs.Prelude.{◌≡◌, ◌-◌, List, ℕ, IfOk, Some};
ghost use Rattle.std.specs.List.{slice_get};
ghost use Rattle.cdc_run.specs.Arrival.{Arrival as Received};
ghost use Rattle.cdc_deliveries.specs.Deliver.{asked_text};
ghost use Rattle.cdc_ledger.specs.Events.{events};
ghost use Rattle.cdc_run.specs.Reports.{deliveries_of, replies_of};
ghost use Rattle.cdc_run.specs.declared.reports.Report.{Report as Reported};
ghost use Rattle.cdc_run_command.specs.Arrived.{arrived};
ghost use Rattle.cdc_run_command.specs.ClientOrders.{IsOrderOf};
ghost use Rattle.cdc_run_command.specs.Runs.{MayComeTo, Setting};
ghost use Rattle.cdc_script.specs.declared.scripts.Script.{Script as Parsed};

use crate::arrivals::arrivals_of_run;
use crate::reports::Ran;
use crate::run_forms::RunForm;
use cdc_commands::{Content, Report};
use cdc_deliveries::Asked;
use cdc_match::Binding;
use cdc_run::Report as RunReport;
use std::alloc::{AllocError, Global};

/// What `run` prints of a run, in forms of type `F`.
pub trait RunContent<F>: Content {
    /// This may be printed of a report on the batches of a script, which these clients submitted, in this order.
    ghost prints_ran: { Self → Parsed → List ℕ → Reported → List ℕ → Type 0 };

    /// Prints a run of a script in which this was found. Fails if it is out of memory.
    fn print(
        &self,
        form: &F,
        alloc: Global,
        found: &Self::Found,
        ran: &Ran,
    ) -> Result<Vec<u8>, AllocError>
        requires { IsOrderOf ran.now.owners.items (replies_of ran.now.report) }
        ensures { (setting : Setting) (script : Parsed) → Self.finds self.now script (Some found.now)
            → MayComeTo setting script ran.now.report → IfOk result (λ text.
            prints_ran self.now script ran.now.owners.items ran.now.report text.items) };
}

impl<F: RunForm> RunContent<F> for Report {
    ghost prints_ran = { λ report script. F.prints_run };

    fn print(
        &self,
        form: &F,
        alloc: Global,
        _found: &(),
        ran: &Ran,
    ) -> Result<Vec<u8>, AllocError> {
        form.run(alloc, ran)
    }
}

/// The lines of what the run delivered to the subscriber up to its close, the same in each form.
impl<F> RunContent<F> for Asked {
    ghost use Rattle.cdc_run_command.specs.RunDeliveries.{PrintsDeliveries};

    ghost prints_ran = { λ asked script owners report. PrintsDeliveries asked script.bindings report };

    fn print(
        &self,
        _form: &F,
        alloc: Global,
        found: &Binding,
        ran: &Ran,
    ) -> Result<Vec<u8>, AllocError> {
        report_lines(alloc, &ran.report, found, *self)
    }
}

/// The lines that are asked for, of a run that came to this report. The subscriber has this binding. An error means out
/// of memory.
fn report_lines(
    alloc: Global,
    report: &RunReport,
    binding: &Binding,
    asked: Asked,
) -> Result<Vec<u8>, AllocError>
    ensures { (received : List Received) → slice_get (deliveries_of report.now) (asked.subscriber - 1) ≡ Some received
        → IfOk result (λ text. text.items
        ≡ asked_text asked.expects binding.now (events report.now.ledger) (arrived received)) }
{
    let Some(received) = report.deliveries.get(asked.subscriber.saturating_sub(1)) else {
        return Ok(Vec::new(alloc));
    };
    let arrivals = arrivals_of_run(alloc, received.as_slice())?;
    asked.lines(alloc, report.ledger.log(), binding, arrivals.as_slice())
}
