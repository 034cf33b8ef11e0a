//! What `run` prints as JSON: an object for each batch in the order of the script, and then what each subscriber holds.

ghost use Rattle.std.specs.Prelude.{◌≡◌, ◌++◌, IfOk, OnOk, map};
ghost use Rattle.cdc_output.specs.Lines.{json_lines, kept_values};
ghost use Rattle.cdc_run.specs.Reports.{replies_of};
ghost use Rattle.cdc_run_command.specs.ClientOrders.{IsOrderOf};
ghost use Rattle.cdc_run_command.specs.Private.Diagnostics.{numbered_values};
ghost use Rattle.cdc_run_command.specs.RunObjects.{ReportsRun};

use crate::reports::Ran;
use crate::run_report::replies_in_order;
use cdc_commands::json_form::push_batch;
use cdc_output::{Lines, push_subscriber};
use cdc_subscriber::Subscriber;
use cdc_traffic::Reply;
use std::alloc::{AllocError, Global};

/// What `run` prints as JSON. Fails if it is out of memory.
pub(crate) fn print_run_objects(alloc: Global, ran: &Ran) -> Result<Vec<u8>, AllocError>
    requires { IsOrderOf ran.now.owners.items (replies_of ran.now.report) }
    ensures { IfOk result (λ text. ReportsRun ran.now.owners.items ran.now.report text.items) }
{
    let (order, replies) = (ran.owners.as_slice(), ran.report.replies.as_slice());
    let replies = replies_in_order(alloc, order, replies)?;
    let mut lines = Lines::new(alloc);
    push_replies(alloc, &mut lines, replies.as_slice())?;
    push_kept(alloc, &mut lines, ran.report.subscribers.as_slice())?;
    Ok(lines.into_text())
}

fn push_replies(alloc: Global, lines: &mut Lines, replies: &[&Reply]) -> Result<(), AllocError>
    ensures { OnOk result (lines.new.text.items ≡ lines.old.text.items
        ++ json_lines (numbered_values 1 (map (λ r. r.now) replies.now))) }
{
    for (place, reply) in replies.iter().enumerate() {
        push_batch(alloc, lines, place as u64 + 1, &reply.answer)?;
    }
    Ok(())
}

fn push_kept(alloc: Global, lines: &mut Lines, subscribers: &[Subscriber]) -> Result<(), AllocError>
    ensures { OnOk result (lines.new.text.items
        ≡ lines.old.text.items ++ json_lines (kept_values 1 subscribers.now)) }
{
    for (place, subscriber) in subscribers.iter().enumerate() {
        push_subscriber(alloc, lines, place as u64 + 1, subscriber)?;
    }
    Ok(())
}
