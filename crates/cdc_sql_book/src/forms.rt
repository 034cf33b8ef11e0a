//! What `follow --sql` prints besides its saves.

use cdc_follow::{Counts, Follower, Stop};
use cdc_follow_command::FollowForm;
use cdc_output::{FaultForm, ProgramFault};
use std::alloc::{AllocError, Global};

/// The form of a run whose saves are printed as SQL: it prints no line of a save, since the database does, and none at
/// the end. Of a failure it prints the line, which belongs to standard error.
#[derive(Clone, Copy)]
pub struct SqlForm;

impl FaultForm for SqlForm {
    ghost use Rattle.std.specs.Prelude.{◌≡◌};
    ghost use Rattle.cdc_output.specs.Faults.{program_fault_line};

    ghost prints_failure = { λ fault line. line ≡ program_fault_line fault };

    fn failure(&self, fault: ProgramFault) -> &'static str {
        fault.line()
    }
}

impl FollowForm for SqlForm {
    ghost use Rattle.std.specs.Prelude.{[]};

    ghost prints_save = { λ _ _. [] };

    ghost prints_end = { λ _ _ _. [] };

    fn save(&self, alloc: Global, _counts: Counts, _timestamp: u64) -> Result<Vec<u8>, AllocError> {
        Ok(Vec::new(alloc))
    }

    fn end(
        &self,
        alloc: Global,
        _counts: Counts,
        _follower: &Follower,
        _stop: Stop,
    ) -> Result<Vec<u8>, AllocError> {
        Ok(Vec::new(alloc))
    }
}
