//! Forms for runs whose saves and book nobody reads.

use crate::forms::StreamForm;
use cdc_output::{FaultForm, ProgramFault};
use std::alloc::{AllocError, Global};

/// A form without the lines of saves and without the book. All else is printed as another form prints it.
#[derive(Clone, Copy)]
pub struct Quiet<F> {
    /// The form of all else.
    pub form: F,
}

impl<F: FaultForm> FaultForm for Quiet<F> {
    ghost prints_failure = { F.prints_failure };

    fn failure(&self, fault: ProgramFault) -> &'static str {
        self.form.failure(fault)
    }
}

impl<F: StreamForm> StreamForm for Quiet<F> {
    ghost use Rattle.std.specs.Prelude.{[]};

    ghost prints_saved = { λ _. [] };

    fn saved(&self, alloc: Global, _timestamp: u64) -> Result<Vec<u8>, AllocError> {
        Ok(Vec::new(alloc))
    }
}
