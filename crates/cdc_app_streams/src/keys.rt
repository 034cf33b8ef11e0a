//! The key with which a command over a stream hashes ids.

use crate::failures::print_failure;
use cdc_app_inputs::advise_on_failure;
use cdc_arguments::Form;
use cdc_keys::HashKey;
use cdc_output::ProgramFault;
use std::hash::RandomState;
use std::io;

/// A key of this run alone, so that whoever sends a stream can't choose ids that collide. The one error is that the
/// system gives no random bytes.
pub fn random_key(rt: &HostRuntime) -> io::Result<HashKey> {
    Ok(HashKey::Random(RandomState::new(rt)?))
}

/// Prints the fault of a command that has no key, and reports why on standard error.
pub fn refuse_key(rt: &HostRuntime, error: io::Error, form: Form) -> ProgramFault {
    let fault = ProgramFault::ReadFault(error);
    print_failure(rt, form, fault);
    advise_on_failure(rt, "random bytes", fault);
    fault
}
