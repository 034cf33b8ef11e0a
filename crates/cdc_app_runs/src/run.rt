//! The command `run`.

ghost use Rattle.cdc_run_command.specs.Plans.{IsPlan};

use crate::run_advice::{advise_on_run, explain_run};
use crate::run_faults::{copy_faults, report_missed};
use crate::run_traces::{report_counts, trace_run};
use crate::run_turns::Turns;
use cdc_app_inputs::{EXPLAIN, Kept, Source, abort, hint, note, report_no_subscriber, shown_name};
use cdc_arguments::{Form, RunDiagnostics};
use cdc_commands::{Ended, Ending, Report};
use cdc_deliveries::Asked;
use cdc_output::{Json, ProgramFault, Text};
use cdc_progress::{FileStore, MemoryStore, ProgressStore};
use cdc_run_command::{Ran, RunEnded, RunForm, RunPlan, run_command};
use std::alloc::AllocGlobal;
use std::io;
use std::sync::Wait;
use std::thread::Threads;

/// What is run, and what is printed of it.
#[derive(Drop)]
pub struct WantedRun<'a> {
    pub plan: RunPlan,
    /// The file in which the connector saves its progress. None is memory.
    pub progress: Option<&'a str>,
    /// The subscriber whose deliveries are printed in the place of the report, if one is named.
    pub deliveries: Option<Asked>,
    pub diagnostics: RunDiagnostics,
    pub form: Form,
}

/// Runs the script of this name on threads, and reports on standard error why the command failed, or what wasn't
/// accepted and which faults never came.
pub fn run_on_threads<T: Threads + Wait + Sync + AllocGlobal>(
    rt: &HostRuntime,
    threads: &T,
    file: &str,
    wanted: WantedRun<'_>,
) -> Ending
    requires { IsPlan wanted.plan }
{
    let WantedRun {
        plan,
        progress,
        deliveries,
        diagnostics,
        form,
    } = wanted;
    let Ok(faults) = copy_faults(rt.alloc(), &plan.faults) else {
        return abort(rt, ProgramFault::OutOfMemory, form);
    };
    let turns = Turns::new();
    let mut script = Kept::new(rt.alloc(), Source::of_script(rt, file));
    let RunEnded {
        ended: Ended {
            ending,
            tally,
            notes,
        },
        ran,
        stop,
    } = match progress {
        None => {
            let store = MemoryStore::new();
            print_in(
                rt,
                threads,
                &mut script,
                plan,
                store,
                deliveries,
                &turns,
                form,
            )
        }
        Some(path) => {
            let store = FileStore::at(rt, path);
            print_in(
                rt,
                threads,
                &mut script,
                plan,
                store,
                deliveries,
                &turns,
                form,
            )
        }
    };
    if let (Ending::Done, Some(ran)) = (ending, ran) {
        let Ran {
            owners,
            lines,
            report,
        } = ran;
        if deliveries.is_some() {
            report_counts(rt, &report);
        }
        if diagnostics.explain {
            explain_run(rt, file, owners.as_slice(), lines, &report);
        } else {
            hint(rt, tally, EXPLAIN);
        }
        if diagnostics.trace {
            trace_run(rt, &turns, &report);
        }
        report_missed(rt, &faults, &report);
    }
    match ending {
        Ending::Done => note(rt, file, notes, notes.has_one_client),
        Ending::BadWords => report_no_subscriber(rt, deliveries),
        _ => {}
    }
    advise_on_run(rt, script.seen(shown_name(file)), progress, stop, ending);
    ending
}

/// Runs a script, and prints what is asked for in this form.
fn print_in<T: Threads + Wait + Sync + AllocGlobal, S: ProgressStore + Send + Drop>(
    rt: &HostRuntime,
    threads: &T,
    script: &mut Kept<Source>,
    plan: RunPlan,
    store: S,
    deliveries: Option<Asked>,
    turns: &Turns,
    form: Form,
) -> RunEnded
    requires { IsPlan plan }
{
    match form {
        Form::Text => print_run(&Text, rt, threads, script, plan, store, deliveries, turns),
        Form::Json => print_run(&Json, rt, threads, script, plan, store, deliveries, turns),
    }
}

/// Runs a script, and prints its report, or the deliveries to one subscriber.
fn print_run<F: RunForm, T: Threads + Wait + Sync + AllocGlobal, S: ProgressStore + Send + Drop>(
    form: &F,
    rt: &HostRuntime,
    threads: &T,
    script: &mut Kept<Source>,
    plan: RunPlan,
    store: S,
    deliveries: Option<Asked>,
    turns: &Turns,
) -> RunEnded
    requires { IsPlan plan }
{
    let mut writer = io::writer(rt);
    match deliveries {
        None => run_command(
            form,
            &Report,
            threads,
            script,
            plan,
            store,
            turns,
            &mut writer,
        ),
        Some(asked) => {
            run_command(
                form,
                &asked,
                threads,
                script,
                plan,
                store,
                turns,
                &mut writer,
            )
        }
    }
}
