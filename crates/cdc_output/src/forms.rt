//! The forms in which commands print.

ghost use Rattle.std.specs.Prelude.{◌≡◌, ℕ, List};
ghost use Rattle.cdc_output.specs.Lines.{fault_value, json_line};
ghost use Rattle.cdc_output.specs.declared.faults.ProgramFault.{ProgramFault as Failure};

use crate::faults::ProgramFault;

/// A form in which every command prints the fault that it failed with.
pub trait FaultForm {
    /// What may be printed for a fault.
    ghost prints_failure: { Failure → List ℕ → Type 0 };

    /// The line of a command that failed. It needs no memory, since there may be none.
    fn failure(&self, fault: ProgramFault) -> &'static str
        ensures { prints_failure fault result.now };
}

/// The form of text: lines of words and numbers.
#[derive(Clone, Copy)]
pub struct Text;

impl FaultForm for Text {
    ghost use Rattle.std.specs.Prelude.{◌≡◌};
    ghost use Rattle.cdc_output.specs.Faults.{program_fault_line};

    ghost prints_failure = { λ fault line. line ≡ program_fault_line fault };

    fn failure(&self, fault: ProgramFault) -> &'static str {
        fault.line()
    }
}

/// The form of JSON: one object per line.
#[derive(Clone, Copy)]
pub struct Json;

impl FaultForm for Json {
    ghost use Rattle.std.specs.Prelude.{◌≡◌};
    ghost use Rattle.cdc_output.specs.Lines.{fault_value, json_line};

    ghost prints_failure = { λ fault line. line ≡ json_line (fault_value fault) };

    fn failure(&self, fault: ProgramFault) -> &'static str {
        fault_line(fault)
    }
}

/// The JSON line of a command that failed.
fn fault_line(fault: ProgramFault) -> &'static str
    ensures { result.now ≡ json_line (fault_value fault) }
{
    match fault {
        ProgramFault::ReadFault(_) => "{\"kind\":\"fault\",\"name\":\"read_fault\"}\n",
        ProgramFault::WriteFault(_) => "{\"kind\":\"fault\",\"name\":\"write_fault\"}\n",
        ProgramFault::Store(_) => "{\"kind\":\"fault\",\"name\":\"store\"}\n",
        ProgramFault::OutOfMemory => "{\"kind\":\"fault\",\"name\":\"out_of_memory\"}\n",
        ProgramFault::PeerGone => "{\"kind\":\"fault\",\"name\":\"peer_gone\"}\n",
        ProgramFault::SessionsExhausted => "{\"kind\":\"fault\",\"name\":\"sessions_exhausted\"}\n",
        ProgramFault::StartNotAllowed => "{\"kind\":\"fault\",\"name\":\"start_not_allowed\"}\n",
        ProgramFault::NotOneSystem => "{\"kind\":\"fault\",\"name\":\"not_one_system\"}\n",
    }
}
