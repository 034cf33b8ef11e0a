//! What a run of a script comes to, whichever way it is printed.

ghost use Rattle.std.specs.Prelude.{◌≡◌, IfErr, IfOk};
ghost use Rattle.cdc_run.specs.Reports.{replies_of};
ghost use Rattle.cdc_run_command.specs.ClientOrders.{IsOrderOf};
ghost use Rattle.cdc_run_command.specs.Failed.{MayFail};
ghost use Rattle.cdc_plans.specs.Plans.{IsPlan};
ghost use Rattle.cdc_run_command.specs.Runnable.{IsRunnable};
ghost use Rattle.cdc_run_command.specs.Runs.{MayComeTo, owners_of, setting_of};

use crate::failures::RunFailed;
use crate::shares::{Parted, part_batches};
use cdc_plans::RunPlan;
use cdc_progress::ProgressStore;
use cdc_run::{Config, Gate, Report, run_explained};
use cdc_script::{Script, ScriptLines};
use std::alloc::Global;
use std::sync::Wait;
use std::thread::Threads;

/// The number of the one system that is run.
const SYSTEM: u64 = 1;

/// What a run of a script came to.
#[derive(Drop)]
pub struct Ran {
    /// The client that submitted each batch, in the order of the script.
    pub owners: Vec<u64>,
    /// Where batches and requests stand in the script.
    pub lines: ScriptLines,
    pub report: Report,
}

/// What a run of a script comes to, for what prints it. Fails if the run met a fault.
pub fn report_of_run<T: Threads + Wait + Sync, S: ProgressStore + Send + Drop, G: Gate + Sync>(
    rt: &T,
    alloc: Global,
    script: Script,
    plan: RunPlan,
    store: S,
    gate: &G,
) -> Result<Ran, RunFailed>
    requires plan { IsPlan plan }
    requires script { IsRunnable script }
    ensures comes { IfOk result (λ ran. MayComeTo
        (setting_of plan (S.held store) (S.is_honest store) (S.risks store)) script ran.report) }
    ensures owners { IfOk result (λ ran. ran.owners.items ≡ owners_of script.batches) }
    ensures lines { IfOk result (λ ran. ran.lines ≡ script.lines) }
    ensures replies { IfOk result (λ ran. IsOrderOf ran.owners.items (replies_of ran.report)) }
    ensures failed { IfErr result (MayFail (S.is_honest store) (S.risks store)) }
{
    let Script {
        bindings,
        batches,
        lines,
    } = script;
    let bindings = bindings.into_vec();
    let batches = batches.into_vec();
    let Parted {
        clients,
        order,
        scripts,
    } = part_batches(alloc, batches)?;
    let RunPlan {
        window,
        prefetch,
        faults,
        start,
    } = plan;
    let config = Config {
        system: SYSTEM,
        bindings,
        clients,
        window,
        prefetch,
        start,
    };
    match run_explained(rt, alloc, config, scripts, faults, store, gate) {
        Ok(report) => Ok(Ran {
            owners: order,
            lines,
            report,
        }),
        Err(failure) => Err(RunFailed::of(&failure)),
    }
}
