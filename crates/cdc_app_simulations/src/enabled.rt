//! The command `simulate` with a step file whose refused steps are skipped.

ghost use Rattle.cdc_types.specs.Windows.{IsWindow};

use crate::observers::Observers;
use crate::simulation::{Wanted, simulated};
use cdc_app_inputs::{Kept, Source};
use cdc_commands::simulate::simulation_of;
use cdc_commands::{Ended, Form as PrintForm, Output, Report, print_output};
use cdc_enabled_steps::{EnabledSteps, enabled_steps};
use cdc_output::ProgramFault;
use cdc_script::{Script, ScriptError, StepFile, parse_script, parse_steps, read_text};
use std::alloc::{AllocError, Global};
use std::io;

/// Runs `simulate` over a script and those steps of a step file that aren't refused, with observers. Returns how it ended,
/// and how many steps were skipped.
pub fn print_enabled<F: PrintForm>(
    rt: &HostRuntime,
    form: &F,
    script: &mut Kept<Source>,
    steps: &mut Kept<Source>,
    wanted: Wanted,
    observers: &mut Observers<'_>,
) -> (Ended, usize)
    requires { IsWindow wanted.window }
{
    let mut skipped = 0;
    let output = enabled_output(rt, form, script, steps, wanted, observers, &mut skipped);
    (print_output(form, &mut io::writer(rt), output), skipped)
}

/// What is printed of this simulation. Sets how many steps were skipped.
fn enabled_output<F: PrintForm>(
    rt: &HostRuntime,
    form: &F,
    script: &mut Kept<Source>,
    steps: &mut Kept<Source>,
    wanted: Wanted,
    observers: &mut Observers<'_>,
    skipped: &mut usize,
) -> Result<Output, ProgramFault>
    requires { IsWindow wanted.window }
{
    let script = read_text(rt.alloc(), script)?;
    let steps = read_text(rt.alloc(), steps)?;
    match enabled_in(rt.alloc(), &script, &steps, wanted.window)? {
        Some(EnabledSteps { steps, refused }) => {
            *skipped = refused;
            simulated(rt, form, &script, &steps, wanted, observers)
        }
        None => faults_of(rt, form, &script, &steps, wanted, observers),
    }
}

/// The steps of these bytes that a simulation of the script of those can take. `None` if the one or the other is bad.
fn enabled_in(
    alloc: Global,
    script: &[u8],
    steps: &[u8],
    window: usize,
) -> Result<Option<EnabledSteps>, AllocError>
    requires { IsWindow window }
{
    match parsed(alloc, script, steps) {
        Ok((script, steps)) => Ok(Some(enabled_steps(alloc, script, window, steps)?)),
        Err(ScriptError::Fault(_)) => Ok(None),
        Err(ScriptError::OutOfMemory) => Err(AllocError),
    }
}

/// The script and the steps that these bytes are.
fn parsed(alloc: Global, script: &[u8], steps: &[u8]) -> Result<(Script, StepFile), ScriptError> {
    let script = parse_script(alloc, script)?;
    Ok((script, parse_steps(alloc, steps)?))
}

/// What is printed of a script or steps that are bad.
fn faults_of<F: PrintForm>(
    rt: &HostRuntime,
    form: &F,
    script: &[u8],
    steps: &[u8],
    wanted: Wanted,
    observers: &mut Observers<'_>,
) -> Result<Output, ProgramFault>
    requires { IsWindow wanted.window }
{
    let alloc = rt.alloc();
    let window = wanted.window;
    match wanted.deliveries {
        None => simulation_of(form, &Report, alloc, script, steps, window, observers),
        Some(asked) => simulation_of(form, &asked, alloc, script, steps, window, observers),
    }
}
