//! What standard error reports, besides the fault's line on standard output.

ghost use Rattle.std.specs.Prelude.{◌↔◌, ◌≡◌, IsTrue};
ghost use Rattle.std.specs.IoError.{error_kind};

use crate::kept::Seen;
use crate::names::Escaped;
use cdc_arguments::{Form, STANDARD_INPUT};
use cdc_commands::{Ending, print_fault};
use cdc_diagnostics::{script_fault_sentence, steps_fault_sentence};
use cdc_output::{Json, ProgramFault, Text};
use cdc_script::ScriptFault;
use std::alloc::AllocError;
use std::io;
use std::io::ErrorKind;

/// Reports why a command failed that has read no file. If that can't be written, the exit status still shows it.
pub fn advise(rt: &HostRuntime, ending: Ending) {
    let _ = advice(rt, shown_name(STANDARD_INPUT), ending);
}

/// Prints the fault of a command that failed before it read a file.
pub fn abort(rt: &HostRuntime, fault: ProgramFault, form: Form) -> Ending {
    let mut writer = io::writer(rt);
    let ending = match form {
        Form::Text => print_fault(&Text, &mut writer, fault),
        Form::Json => print_fault(&Json, &mut writer, fault),
    };
    advise(rt, ending);
    ending
}

/// Reports why a command failed that has read the file of this shown name.
pub fn advise_on_failure(rt: &HostRuntime, place: &str, fault: ProgramFault) {
    let _ = advice(rt, place, Ending::Failed(fault));
}

/// Reports why a command over a script failed or refused it: the place, the fault's name, and what is wrong there or
/// what the system reported.
pub fn advise_on_script(rt: &HostRuntime, script: Seen<'_>, ending: Ending) {
    let _ = match ending {
        Ending::BadScript(fault) => {
            let sentence = match script.bytes {
                Some(bytes) => script_fault_sentence(rt.alloc(), bytes, fault),
                None => Err(AllocError),
            };
            advice_on_file(rt, script.name, fault, sentence)
        }
        _ => advice(rt, script.name, ending),
    };
}

/// The same for a command over a script and a step file.
pub fn advise_on_steps(rt: &HostRuntime, script: Seen<'_>, steps: Seen<'_>, ending: Ending) {
    match ending {
        Ending::BadSteps(fault) => {
            let sentence = match steps.bytes {
                Some(bytes) => steps_fault_sentence(rt.alloc(), bytes, fault),
                None => Err(AllocError),
            };
            let _ = advice_on_file(rt, steps.name, fault, sentence);
        }
        Ending::Failed(ProgramFault::ReadFault(_)) if steps.failed && !script.failed => {
            let _ = advice(rt, steps.name, ending);
        }
        _ => advise_on_script(rt, script, ending),
    }
}

/// A file's name as diagnostics show it.
pub fn shown_name(file: &str) -> &str {
    if file == STANDARD_INPUT {
        "standard input"
    } else {
        file
    }
}

/// Whether a write failed because the reader closed its end of the pipe, as `head` does. The reader chose to stop, so
/// standard error reports nothing.
pub fn is_reader_gone(error: io::Error) -> bool
    ensures { IsTrue result ↔ (error_kind error ≡ ErrorKind.BrokenPipe) }
{
    error.kind() == ErrorKind::BrokenPipe
}

/// Writes one line, or nothing after a command that did all that was asked or lost its reader.
fn advice(rt: &HostRuntime, place: &str, ending: Ending) -> io::Result<()> {
    let place = Escaped(place);
    match ending {
        Ending::Done | Ending::BadWords => Ok(()),
        Ending::BadScript(fault) | Ending::BadSteps(fault) => {
            advice_on_file(rt, place.0, fault, Err(AllocError))
        }
        Ending::Refused(refusal) => {
            let name = refusal.name();
            eprintln!(rt; "relayplum: a step was refused: {name}")
        }
        Ending::Failed(ProgramFault::ReadFault(error)) => eprintln!(rt;
            "{place}: read_fault: {error}"
        ),
        Ending::Failed(ProgramFault::WriteFault(error)) if is_reader_gone(error) => Ok(()),
        Ending::Failed(ProgramFault::WriteFault(error)) => {
            eprintln!(rt; "standard output: write_fault: {error}")
        }
        Ending::Failed(ProgramFault::Store(error)) => {
            let name = error.name();
            eprintln!(rt; "relayplum: store: {name}")
        }
        Ending::Failed(ProgramFault::OutOfMemory) => {
            eprintln!(rt; "relayplum: out_of_memory: no memory was left")
        }
        Ending::Failed(ProgramFault::PeerGone) => {
            eprintln!(rt;
                "relayplum: peer_gone: an actor of the run was gone while another one talked to it"
            )
        }
        Ending::Failed(ProgramFault::SessionsExhausted) => {
            eprintln!(rt;
                "relayplum: sessions_exhausted: the saved session has the greatest number there is"
            )
        }
        Ending::Failed(ProgramFault::StartNotAllowed) => {
            eprintln!(rt;
                "relayplum: start_not_allowed: progress is saved already, and it fixes where the run goes on"
            )
        }
        Ending::Failed(ProgramFault::NotOneSystem) => {
            eprintln!(rt;
                "relayplum: not_one_system: the actors of the run weren't those of one system"
            )
        }
    }
}

/// Writes the place and the name of a file's error, and a sentence on it, if there was memory for that.
fn advice_on_file(
    rt: &HostRuntime,
    place: &str,
    fault: ScriptFault,
    sentence: Result<String, AllocError>,
) -> io::Result<()> {
    let ScriptFault {
        line,
        column,
        kind,
        ..
    } = fault;
    let name = kind.name();
    let place = Escaped(place);
    match sentence {
        Ok(sentence) if line != 0 => {
            eprintln!(rt; "{place}:{line}:{column}: {name}: {sentence}")
        }
        Ok(sentence) => eprintln!(rt; "{place}: {name}: {sentence}"),
        Err(_) if line != 0 => eprintln!(rt; "{place}:{line}:{column}: {name}"),
        Err(_) => eprintln!(rt; "{place}: {name}"),
    }
}
