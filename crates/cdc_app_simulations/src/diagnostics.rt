//! What standard error reports of a simulation that succeeded, besides what it printed: why items weren't accepted, why
//! a step was refused, and what each step did. If memory runs out on the way, nothing is reported. A write that fails
//! is ignored, since the command has ended by then.

use cdc_app_inputs::{Escaped, is_reader_gone};
use cdc_arguments::{Diagnostics, STANDARD_ERROR};
use cdc_commands::Ending;
use cdc_diagnostics::{Asked, Observed, RefusedStep};
use cdc_world::StepError;
use std::fs::OpenOptions;
use std::io::Read;
use std::{fs, io};

/// What these flags ask a simulation's observer for.
pub fn asked(diagnostics: Diagnostics<'_>) -> Asked {
    Asked {
        items: diagnostics.explain,
        trace: diagnostics.trace || diagnostics.page.is_some(),
        diagram: diagnostics.diagram.is_some(),
    }
}

/// Whether what was observed of a simulation that ended so is printed: a step was refused, or something was asked for
/// and the simulation succeeded. There is nothing to report of a step that ran out of memory.
pub fn is_reported(ending: Ending, diagnostics: Diagnostics<'_>) -> bool {
    match ending {
        Ending::Refused(StepError::OutOfMemory) => false,
        Ending::Refused(_) => true,
        Ending::Done => {
            let Diagnostics {
                explain,
                trace,
                diagram,
                page,
                svg,
            } = diagnostics;
            explain || trace || diagram.is_some() || page.is_some() || svg.is_some()
        }
        _ => false,
    }
}

/// Prints what was observed of a simulation and is asked for, and why a step of this step file was refused, if one
/// was. Returns whether one was.
pub fn report_simulation(
    rt: &HostRuntime,
    step_file: &str,
    observed: &Observed,
    diagnostics: Diagnostics<'_>,
) -> bool {
    if diagnostics.trace {
        let text = observed.trace.as_str();
        let _ = eprint!(rt; "{text}");
    }
    if diagnostics.explain {
        let text = observed.items.as_str();
        let _ = eprint!(rt; "{text}");
    }
    if let Some(file) = diagnostics.diagram {
        draw(rt, file, observed.diagram.as_str());
    }
    match &observed.refusal {
        Some(RefusedStep { line, why }) => {
            let why = why.as_str();
            let step_file = Escaped(step_file);
            let _ = eprintln!(rt; "{step_file}:{line}: {why}");
            true
        }
        None => false,
    }
}

/// The first bytes of a diagram (Mermaid).
const DIAGRAM: &[u8] = b"sequenceDiagram";

/// The first bytes of a page.
const PAGE: &[u8] = b"<!DOCTYPE html>\n<!-- Relayplum:";

/// The first bytes of a drawing.
const DRAWING: &[u8] = b"<svg xmlns=";

/// The most bytes that are compared.
const MOST_BYTES: usize = 32;

/// Whether what is asked for can be drawn without the loss of anything else, such as a file that the command reads.
/// Reports it if not.
pub fn can_draw(rt: &HostRuntime, diagnostics: Diagnostics<'_>, inputs: &[&str]) -> bool {
    let Diagnostics {
        diagram,
        page,
        svg,
        ..
    } = diagnostics;
    let diagram = diagram.filter(|out| *out != STANDARD_ERROR);
    is_free(rt, "diagram", diagram, DIAGRAM, &[None, None], inputs)
        && is_free(rt, "page", page, PAGE, &[diagram, None], inputs)
        && is_free(rt, "svg", svg, DRAWING, &[diagram, page], inputs)
}

/// Whether the file that a flag names, if it is given, may get a text that begins with these bytes: it is none of the
/// other files. Reports it if not.
fn is_free(
    rt: &HostRuntime,
    flag: &str,
    out: Option<&str>,
    first: &[u8],
    others: &[Option<&str>],
    inputs: &[&str],
) -> bool {
    let Some(out) = out else {
        return true;
    };
    if !inputs.contains(&out) && !others.contains(&Some(out)) && may_write(rt, out, first) {
        return true;
    }
    report_loss(rt, flag, out);
    false
}

/// Reports that a file holds something that would be lost.
fn report_loss(rt: &HostRuntime, flag: &str, out: &str) {
    let out = Escaped(out);
    let _ = eprintln!(rt;
        "error: --{flag}={out}: this file holds something else than a {flag}, which would be lost; name another one"
    );
}

/// Whether a text that begins with these bytes may be written to the file of this name without the loss of anything
/// else: the file doesn't exist, is empty or begins with them, or is no regular file, such as a pipe.
fn may_write(rt: &HostRuntime, name: &str, first: &[u8]) -> bool {
    let Ok(mut file) = OpenOptions::new().read(true).write(true).open(rt, name) else {
        // (a file that can't be written fails when it is written; nobody knows what an unreadable file holds)
        return !holds_something(rt, name) || OpenOptions::new().write(true).open(rt, name).is_err();
    };
    let is_regular = file
        .metadata()
        .is_ok_and(|data| data.is_file() && data.len() > 0);
    let mut found = [0; MOST_BYTES];
    let Some(found) = found.get_mut(..first.len()) else {
        return false;
    };
    !is_regular || file.read_exact(found).is_ok() && &*found == first
}

/// Whether the file of this name is a regular one with something in it.
fn holds_something(rt: &HostRuntime, name: &str) -> bool {
    fs::metadata(rt, name).is_ok_and(|data| data.is_file() && data.len() > 0)
}

/// Writes a diagram to standard error or to the file of this name, and reports a write that failed, unless the file
/// is a pipe that its reader has closed.
pub fn draw(rt: &HostRuntime, file: &str, diagram: &str) {
    if file == STANDARD_ERROR {
        let _ = eprint!(rt; "{diagram}");
        return;
    }
    report_unwritten(rt, file, fs::write(rt, file, diagram));
}

/// Reports a write to the file of this name that failed, unless the file is a pipe that its reader has closed.
pub(crate) fn report_unwritten(rt: &HostRuntime, file: &str, written: io::Result<()>) {
    match written {
        Err(error) if !is_reader_gone(error) => {
            let file = Escaped(file);
            let _ = eprintln!(rt; "{file}: write_fault: {error}");
        }
        _ => {}
    }
}
