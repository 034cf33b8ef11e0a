//! Reading the files of a command.

ghost use Rattle.std.specs.Prelude.{◌+◌, IfOk, IfSome};
ghost use Rattle.cdc_script.specs.Reading.{ConsumesAtMost};
ghost use Rattle.cdc_script.specs.Scripts.{max_bytes, script_of};
ghost use Rattle.cdc_script.specs.StepFiles.{acts_of};
ghost use Rattle.cdc_commands.specs.FaultWords.{IsParsedAs};

use cdc_script::{ReadError, read_text};
use std::alloc::Global;
use std::io::Read;

/// Reads the bytes of a script or a step file, and stops after one byte more than is allowed. The result parses as
/// all bytes of the reader would, and has the same word in error. The error is the reader's or out of memory.
#[tactic(auto, using(crate::proofs::ReadingLemmas::parsed_as_script, crate::proofs::ReadingLemmas::parsed_as_steps))]
pub fn read_file<R: Read>(alloc: Global, reader: &mut R) -> Result<Vec<u8>, ReadError>
    ensures bounded { ConsumesAtMost (max_bytes + 1)
        (R.remaining reader.old) (R.remaining reader.new) }
    ensures script { IfSome (R.remaining reader.old) (λ bytes.
        IfOk result (λ text. IsParsedAs script_of text.items bytes)) }
    ensures steps { IfSome (R.remaining reader.old) (λ bytes.
        IfOk result (λ text. IsParsedAs acts_of text.items bytes)) }
{
    read_text(alloc, reader)
}
