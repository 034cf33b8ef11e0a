//! An observer that writes the data of a page.

ghost use Rattle.std.specs.Prelude.{◌≡◌, ◌∷◌, ◌++◌, [], List, Some};
ghost use Rattle.cdc_commands.specs.Seen.{Seen};
ghost use Rattle.cdc_page.specs.Pages.{HasRecorded};

use crate::recording::Recording;
use cdc_commands::Observer;
use cdc_ledger::Ledger;
use cdc_progress::MemoryStore;
use cdc_script::{Script, StepFile};
use cdc_types::Step;
use cdc_world::{Did, Moved, StepError, World};
use std::alloc::{AllocError, Global};

/// Writes the steps of a simulation as the data of a page, while they run.
#[derive(Drop)]
pub struct PageRecorder {
    alloc: Global,
    /// Whether a page is asked for.
    is_asked: bool,
    /// `None` before the simulation begins, if no page is asked for, or if memory ran out.
    pub(crate) recording: Option<Recording>,
}

impl PageRecorder {
    /// A recorder that has seen nothing. If no page is asked for, it writes nothing.
    pub fn new(alloc: Global, is_asked: bool) -> PageRecorder
        ensures { result.is_asked ≡ is_asked }
    {
        PageRecorder {
            alloc,
            is_asked,
            recording: None,
        }
    }
}

impl Observer for PageRecorder {
    ghost use Rattle.cdc_page.specs.Pages.{HasRecorded};

    ghost has_seen = { λ recorder seen. HasRecorded recorder.recording seen };

    fn begin(&mut self, alloc: Global, script: &Script, _steps: &StepFile) {
        self.recording = None;
        if self.is_asked {
            self.recording = Recording::new(alloc, script.bindings.as_slice()).ok();
        }
    }

    fn see(&mut self, step: &Step, did: &Did, moved: Option<Moved>, ledger: &Ledger) {
        let recording = self.recording.take();
        self.recording = recorded(self.alloc, recording, step, did, moved, ledger);
    }

    fn refuse(&mut self, _step: Option<&Step>, _why: StepError, _world: &World<MemoryStore>) {}

    fn end(&mut self, _ledger: &Ledger) {}
}

/// A recording with one more step. `None` if there is none, or if memory ran out.
fn recorded(
    alloc: Global,
    recording: Option<Recording>,
    step: &Step,
    did: &Did,
    moved: Option<Moved>,
    ledger: &Ledger,
) -> Option<Recording>
    ensures { (seen : List Seen) → HasRecorded recording seen → HasRecorded result
        (seen ++ record {
          step = step.now;
          did = did.now;
          moved = moved;
          history = ledger.now;
        } ∷ []) }
{
    match recording {
        Some(recording) => with_step(alloc, recording, step, did, moved, ledger),
        None => None,
    }
}

/// The same of a recording that there is.
fn with_step(
    alloc: Global,
    recording: Recording,
    step: &Step,
    did: &Did,
    moved: Option<Moved>,
    ledger: &Ledger,
) -> Option<Recording>
    ensures { (seen : List Seen) → HasRecorded (Some recording) seen → HasRecorded result
        (seen ++ record {
          step = step.now;
          did = did.now;
          moved = moved;
          history = ledger.now;
        } ∷ []) }
{
    let mut recording = recording;
    match recording.push(alloc, step, did, moved, ledger) {
        Ok(()) => Some(recording),
        Err(AllocError) => None,
    }
}
