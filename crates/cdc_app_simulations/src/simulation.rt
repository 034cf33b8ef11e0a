//! The command `simulate` with a step file.

ghost use Rattle.cdc_types.specs.Windows.{IsWindow};

use crate::diagnostics::{can_draw, is_reported, report_simulation};
use crate::enabled::print_enabled;
use crate::observers::{Observers, observers_of};
use crate::pictures::write_pictures;
use cdc_app_inputs::{
    EXPLAIN, Kept, Source, abort, advise_on_steps, escaped_text, hint, note, report_count,
    report_no_subscriber, shown_name,
};
use cdc_arguments::{Diagnostics, Form};
use cdc_commands::simulate::{simulate_command, simulation_of_steps};
use cdc_commands::{Ended, Ending, Form as PrintForm, Output, Report};
use cdc_deliveries::{Asked, Both, Recorder, count_of};
use cdc_output::{Json, ProgramFault, Text};
use cdc_script::StepFile;
use cdc_types::Limits;
use std::io;

/// What is simulated, and what is printed of it.
#[derive(Clone, Copy)]
pub struct Wanted {
    /// Whether steps of a step file that are refused are skipped.
    pub skips_refused: bool,
    /// The number of events that a session waits for at a time.
    pub window: usize,
    /// The subscriber whose deliveries are printed in the place of the report, if one is named.
    pub deliveries: Option<Asked>,
    pub form: Form,
}

/// Runs `simulate` over the script and the step file of these names, and reports on standard error what is asked for,
/// why a step was refused, or why the command failed.
pub fn run_simulation(
    rt: &HostRuntime,
    file: &str,
    steps: &str,
    wanted: Wanted,
    diagnostics: Diagnostics<'_>,
) -> Ending
    requires { IsWindow wanted.window }
{
    if !can_draw(rt, diagnostics, &[file, steps]) {
        return Ending::BadWords;
    }
    let mut script = Kept::new(rt.alloc(), Source::of_script(rt, file));
    let mut step_file = Kept::new(rt.alloc(), Source::of_file(rt, steps));
    let Ok(name) = escaped_text(rt.alloc(), shown_name(file)) else {
        return abort(rt, ProgramFault::OutOfMemory, wanted.form);
    };
    let mut observers = observers_of(rt, name.as_str(), diagnostics);
    let (
        Ended {
            ending,
            tally,
            notes,
        },
        skipped,
    ) = print_simulation(rt, &mut script, &mut step_file, wanted, &mut observers);
    let Both {
        first: recorder,
        second: Both {
            first: observation,
            second: pictures,
        },
    } = observers;
    let mut reported = false;
    if is_reported(ending, diagnostics) {
        if let Some(observed) = observation.finish(rt.alloc()) {
            reported = report_simulation(rt, steps, &observed, diagnostics);
            write_pictures(
                rt,
                shown_name(file),
                wanted.window,
                &pictures,
                &observed,
                diagnostics,
            );
        }
    }
    let seen = script.seen(shown_name(file));
    if !reported {
        advise_on_steps(rt, seen, step_file.seen(steps), ending);
    }
    match ending {
        Ending::Done | Ending::Refused(_) => {
            report_skipped(rt, skipped);
            report_counts(rt, &recorder, "");
            if !diagnostics.explain {
                hint(rt, tally, EXPLAIN);
            }
            note(rt, file, notes, true);
        }
        Ending::BadWords => report_no_subscriber(rt, wanted.deliveries),
        _ => {}
    }
    ending
}

/// Runs `simulate` over a script and a step file, with observers. Returns how it ended, and how many steps were skipped.
fn print_simulation(
    rt: &HostRuntime,
    script: &mut Kept<Source>,
    steps: &mut Kept<Source>,
    wanted: Wanted,
    observers: &mut Observers<'_>,
) -> (Ended, usize)
    requires { IsWindow wanted.window }
{
    match (wanted.form, wanted.skips_refused) {
        (Form::Text, true) => print_enabled(rt, &Text, script, steps, wanted, observers),
        (Form::Json, true) => print_enabled(rt, &Json, script, steps, wanted, observers),
        (Form::Text, false) => (print_in(rt, &Text, script, steps, wanted, observers), 0),
        (Form::Json, false) => (print_in(rt, &Json, script, steps, wanted, observers), 0),
    }
}

/// Runs `simulate`, and prints in this form its report or the deliveries.
fn print_in<F: PrintForm>(
    rt: &HostRuntime,
    form: &F,
    script: &mut Kept<Source>,
    steps: &mut Kept<Source>,
    wanted: Wanted,
    observers: &mut Observers<'_>,
) -> Ended
    requires { IsWindow wanted.window }
{
    let alloc = rt.alloc();
    let mut writer = io::writer(rt);
    let Wanted {
        window,
        deliveries,
        ..
    } = wanted;
    match deliveries {
        None => {
            simulate_command(
                form,
                &Report,
                alloc,
                script,
                steps,
                window,
                &mut writer,
                observers,
            )
        }
        Some(asked) => {
            simulate_command(
                form,
                &asked,
                alloc,
                script,
                steps,
                window,
                &mut writer,
                observers,
            )
        }
    }
}

/// What is printed in this form of a simulation of a script by these steps, with observers.
pub fn simulated<F: PrintForm>(
    rt: &HostRuntime,
    form: &F,
    script: &[u8],
    steps: &StepFile,
    wanted: Wanted,
    observers: &mut Observers<'_>,
) -> Result<Output, ProgramFault>
    requires { IsWindow wanted.window }
{
    let alloc = rt.alloc();
    let window = wanted.window;
    match wanted.deliveries {
        None => simulation_of_steps(form, &Report, alloc, script, steps, window, observers),
        Some(asked) => simulation_of_steps(form, &asked, alloc, script, steps, window, observers),
    }
}

/// Reports how many steps of a step file were refused and skipped, if any was.
fn report_skipped(rt: &HostRuntime, skipped: usize) {
    if skipped != 0 {
        let _ = eprintln!(rt; "relayplum: steps refused and skipped: {skipped}");
    }
}

/// Reports how many of the deliveries that came to a subscriber up to its close it applied, for each subscriber that
/// didn't apply all of them. The end mark doesn't count. Each line begins with `before`.
pub fn report_counts(rt: &HostRuntime, recorder: &Recorder, before: &str) {
    let Some(steps) = &recorder.steps else {
        return;
    };
    for subscriber in 1..Limits::SUBSCRIBERS + 1 {
        let count = count_of(steps.as_slice(), subscriber as u64);
        report_count(rt, subscriber, count, before);
    }
}
