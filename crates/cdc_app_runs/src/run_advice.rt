//! What standard error reports of a run, besides what it printed.

use crate::progress_advice::trouble;
use crate::run_places::Shown;
use cdc_actors::RunFault;
use cdc_app_inputs::{
    Escaped, Seen, advise_on_failure, advise_on_script, escaped_text, shown_name,
};
use cdc_commands::Ending;
use cdc_diagnostics::{RunExplanation, Submitted, run_explanation};
use cdc_output::ProgramFault;
use cdc_run::{Met, Place, Report};
use cdc_script::ScriptLines;
use std::io;

/// Reports why a run of a script failed, whose progress is in the file of that name, or in memory. For a fault that an
/// actor met, it also names the actor.
pub fn advise_on_run(
    rt: &HostRuntime,
    script: Seen<'_>,
    progress: Option<&str>,
    stop: Option<(Place, Met)>,
    ending: Ending,
) {
    match (ending, progress, stop) {
        (Ending::Failed(ProgramFault::Store(error)), Some(saved), _) => {
            let name = error.name();
            let why = trouble(rt, saved, error);
            let saved = Escaped(saved);
            let _ = eprintln!(rt; "{saved}: store: {name}: {why}");
        }
        (Ending::Failed(fault), _, Some((place, met))) => {
            let _ = advice_on_place(rt, script, fault, place, met);
        }
        _ => advise_on_script(rt, script, ending),
    }
}

/// Writes one line on a fault that the actor at a place met.
fn advice_on_place(
    rt: &HostRuntime,
    script: Seen<'_>,
    fault: ProgramFault,
    place: Place,
    met: Met,
) -> io::Result<()> {
    let end = Shown(place);
    match (fault, met) {
        (ProgramFault::OutOfMemory, Met::Unstarted) => {
            eprintln!(rt; "relayplum: out_of_memory: no thread could be started for {end}")
        }
        (ProgramFault::OutOfMemory, Met::Fault(RunFault::OutOfMemory)) => {
            eprintln!(rt; "relayplum: out_of_memory: no memory was left for {end}")
        }
        (ProgramFault::PeerGone, Met::Fault(RunFault::PeerGone)) => {
            eprintln!(rt; "relayplum: peer_gone: another actor was gone while {end} talked to it")
        }
        _ => {
            advise_on_failure(rt, script.name, fault);
            Ok(())
        }
    }
}

/// Prints why each item of a script wasn't accepted in a run that came to this report, and why each batch was refused.
/// These clients submitted the batches, and the batches and their requests stand in these lines.
pub fn explain_run(
    rt: &HostRuntime,
    file: &str,
    owners: &[u64],
    lines: ScriptLines,
    report: &Report,
) {
    let Ok(name) = escaped_text(rt.alloc(), shown_name(file)) else {
        return;
    };
    let name = name.as_str();
    let submitted = Submitted {
        owners,
        order: report.order.as_slice(),
        replies: report.replies.as_slice(),
    };
    match run_explanation(rt.alloc(), name, lines, submitted) {
        Some(RunExplanation::Alone(text)) => {
            let _ = eprint!(rt; "{text}");
        }
        Some(RunExplanation::InOrder(text)) => {
            let _ = eprint!(rt;
                "{name}: in the order in which the ledger took the clients' batches\n{text}"
            );
        }
        None => {}
    }
}
