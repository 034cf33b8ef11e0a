//! What a run with only one client prints.

ghost use Rattle.cdc_run_command.specs.LoneRuns.{LoneRunsPrintBooks};

use cdc_run::determined_laws;

/// Does nothing: if one client submits all batches, whatever its number, no subscriber is asked to close, no session
/// is given a start, and the store holds nothing, or the timestamp 0 and the start 0, then a run prints what `books`
/// prints of its script.
pub fn lone_run_laws()
    ensures { LoneRunsPrintBooks }
{
    determined_laws();
}
