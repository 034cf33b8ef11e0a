//! The command `simulate` with random steps. Standard error gets them as a step file, and whatever else is written
//! there is a comment in it, except why the command failed and that a diagram can't be written.

ghost use Rattle.cdc_types.specs.Windows.{IsWindow};

use crate::diagnostics::{can_draw, draw, is_reported};
use crate::observers::{Observers, observers_of};
use crate::pictures::write_pictures;
use crate::simulation::{Wanted, report_counts, simulated};
use cdc_app_inputs::{
    Kept, Seen, Source, advise_on_script, escaped_text, report_no_subscriber, shown_name,
};
use cdc_arguments::{Diagnostics, Form, STANDARD_ERROR};
use cdc_commands::{Ended, Ending, Tally, print_fault, print_output};
use cdc_deliveries::Both;
use cdc_diagnostics::{Observed, RefusedStep, notes_text};
use cdc_output::{Json, ProgramFault, Text};
use cdc_random_steps::{Chances, RandomSteps, random_steps};
use cdc_script::{StepFile, read_text};
use std::io;

/// Makes random steps for the script of this name, prints them as a step file on standard error, and simulates the
/// script by them.
pub fn run_random(
    rt: &HostRuntime,
    file: &str,
    wanted: Wanted,
    chances: Chances,
    diagnostics: Diagnostics<'_>,
) -> Ending
    requires { IsWindow wanted.window }
{
    let Wanted { window, form, .. } = wanted;
    if !can_draw(rt, diagnostics, &[file]) {
        return Ending::BadWords;
    }
    let mut source = Kept::new(rt.alloc(), Source::of_script(rt, file));
    let read = read_text(rt.alloc(), &mut source);
    let seen = source.seen(shown_name(file));
    let script = match read {
        Ok(script) => script,
        Err(error) => return abort(rt, seen, error.into(), form),
    };
    let Ok(RandomSteps { text, steps }) = random_steps(rt.alloc(), &script, window, chances) else {
        return abort(rt, seen, ProgramFault::OutOfMemory, form);
    };
    let Ok(name) = escaped_text(rt.alloc(), shown_name(file)) else {
        return abort(rt, seen, ProgramFault::OutOfMemory, form);
    };
    let mut observers = observers_of(rt, name.as_str(), diagnostics);
    let Ended {
        ending,
        tally,
        notes,
    } = simulate(rt, &script, &steps, wanted, &mut observers);
    let Both {
        first: recorder,
        second: Both {
            first: observation,
            second: pictures,
        },
    } = observers;
    match ending {
        Ending::Done | Ending::Refused(_) => {
            print_steps(rt, window, chances, text.as_str());
            let mut reported = false;
            if is_reported(ending, diagnostics) {
                if let Some(observed) = observation.finish(rt.alloc()) {
                    reported = report(rt, &observed, diagnostics);
                    write_pictures(
                        rt,
                        shown_name(file),
                        window,
                        &pictures,
                        &observed,
                        diagnostics,
                    );
                }
            }
            if let (Ending::Refused(refusal), false) = (ending, reported) {
                let name = refusal.name();
                let _ = eprintln!(rt; "# relayplum: a step was refused: {name}");
            }
            report_counts(rt, &recorder, "# ");
            if !diagnostics.explain {
                hint(rt, tally);
            }
            if let Some(text) = notes_text(rt.alloc(), name.as_str(), notes, true) {
                comment(rt, text.as_str());
            }
        }
        Ending::BadWords => report_no_subscriber(rt, wanted.deliveries),
        _ => advise_on_script(rt, seen, ending),
    }
    ending
}

/// Prints the fault of a command that failed, and reports why on standard error.
fn abort(rt: &HostRuntime, script: Seen<'_>, fault: ProgramFault, form: Form) -> Ending {
    let mut writer = io::writer(rt);
    let ending = match form {
        Form::Text => print_fault(&Text, &mut writer, fault),
        Form::Json => print_fault(&Json, &mut writer, fault),
    };
    advise_on_script(rt, script, ending);
    ending
}

/// Runs `simulate` over a script and these steps, with observers.
fn simulate(
    rt: &HostRuntime,
    script: &[u8],
    steps: &StepFile,
    wanted: Wanted,
    observers: &mut Observers<'_>,
) -> Ended
    requires { IsWindow wanted.window }
{
    let mut writer = io::writer(rt);
    match wanted.form {
        Form::Text => {
            let output = simulated(rt, &Text, script, steps, wanted, observers);
            print_output(&Text, &mut writer, output)
        }
        Form::Json => {
            let output = simulated(rt, &Json, script, steps, wanted, observers);
            print_output(&Json, &mut writer, output)
        }
    }
}

/// Prints the text of a step file, with the command line that makes it.
fn print_steps(rt: &HostRuntime, window: usize, chances: Chances, text: &str) {
    let Chances {
        seed,
        steps: count,
        faults,
        to_end,
    } = chances;
    let end = if to_end { " --to-end" } else { "" };
    let _ = eprint!(rt;
        "# relayplum simulate FILE --random {seed} --steps {count} --faults {faults}{end} --window {window}\n{text}"
    );
}

/// Prints what was observed and is asked for, and why a step was refused, if one was. Returns whether one was.
fn report(rt: &HostRuntime, observed: &Observed, diagnostics: Diagnostics<'_>) -> bool {
    if diagnostics.trace {
        comment(rt, observed.trace.as_str());
    }
    if diagnostics.explain {
        comment(rt, observed.items.as_str());
    }
    match diagnostics.diagram {
        Some(STANDARD_ERROR) => comment(rt, observed.diagram.as_str()),
        Some(out) => draw(rt, out, observed.diagram.as_str()),
        None => {}
    }
    match &observed.refusal {
        Some(RefusedStep { why, .. }) => {
            comment(rt, why.as_str());
            true
        }
        None => false,
    }
}

/// Reports how many items weren't accepted and how many batches were refused, if any was.
fn hint(rt: &HostRuntime, tally: Tally) {
    let Tally { items, batches } = tally;
    if items != 0 || batches != 0 {
        let _ = eprintln!(rt;
            "# relayplum: requests not accepted: {items}, batches refused: {batches}; --explain prints why"
        );
    }
}

/// Prints the lines of a text as comments of a step file.
fn comment(rt: &HostRuntime, text: &str) {
    for line in text.lines() {
        let _ = eprintln!(rt; "# {line}");
    }
}
