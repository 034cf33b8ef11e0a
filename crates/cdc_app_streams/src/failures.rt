//! What a command prints that can't begin.

use cdc_arguments::Form;
use cdc_commands::print_fault;
use cdc_output::{Json, ProgramFault, Text};
use std::io;

/// Prints this fault.
pub fn print_failure(rt: &HostRuntime, form: Form, fault: ProgramFault) {
    let mut writer = io::writer(rt);
    let _ending = match form {
        Form::Text => print_fault(&Text, &mut writer, fault),
        Form::Json => print_fault(&Json, &mut writer, fault),
    };
}
