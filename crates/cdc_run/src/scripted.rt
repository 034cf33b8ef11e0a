//! A client actor with the script that it is to submit.

ghost use Rattle.std.specs.Prelude.{◌≡◌, false};

use cdc_actors::ClientEnd;
use cdc_types::Batch;
use std::marker::Model;

/// A client actor that hasn't finished, and the batches that it is to submit, in their order.
#[derive(Drop)]
pub(crate) struct Scripted {
    end: ClientEnd,
    script: Vec<Batch>,
}

impl Model for Scripted {
    ghost use Rattle.std.specs.Prelude.{◌≡◌, false};
    ghost use Rattle.cdc_run.specs.Scripted.{ScriptedState};

    ghost Value = { ScriptedState };

    ghost view = { λ c. record { end = c.end; script = c.script.items } };

    ghost invariant = { λ c. c.end.work.finished ≡ false };
}

impl Scripted {
    pub(crate) fn new(end: ClientEnd, script: Vec<Batch>) -> Scripted
        requires { end.work.finished ≡ false }
        ensures { result ≡ record { end = end; script = script.items } }
    {
        Scripted { end, script }
    }

    pub(crate) fn into_parts(self) -> (ClientEnd, Vec<Batch>)
        ensures end { result.0 ≡ self.end }
        ensures script { result.1.items ≡ self.script }
        ensures talks { result.0.work.finished ≡ false }
    {
        (self.end, self.script)
    }
}
