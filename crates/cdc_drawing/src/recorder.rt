//! An observer that draws.

ghost use Rattle.std.specs.Prelude.{◌≡◌, ◌++◌, ◌∷◌, [], IfSome, List, Some};
ghost use Rattle.cdc_commands.specs.Seen.{Seen};
ghost use Rattle.cdc_drawing.specs.Drawings.{HasDrawn, drawing_text};

use crate::rows::{Rows, drawing_of};
use cdc_commands::Observer;
use cdc_ledger::Ledger;
use cdc_progress::MemoryStore;
use cdc_script::{Script, StepFile};
use cdc_types::Step;
use cdc_world::{Did, Moved, StepError, World};
use std::alloc::{AllocError, Global};

/// Draws the steps of a simulation while they run.
#[derive(Drop)]
pub struct DrawingRecorder {
    /// Whether a drawing is asked for.
    is_asked: bool,
    /// `None` before the simulation begins, if no drawing is asked for, or if memory ran out.
    rows: Option<Rows>,
}

impl DrawingRecorder {
    /// A recorder that has seen nothing. If no drawing is asked for, it draws nothing.
    pub fn new(is_asked: bool) -> DrawingRecorder
        ensures { result.is_asked ≡ is_asked }
    {
        DrawingRecorder {
            is_asked,
            rows: None,
        }
    }

    /// The drawing of the steps that were recorded, with this style. `None` if nothing was recorded, or if memory ran
    /// out.
    pub fn drawing(&self, alloc: Global, style: &str) -> Option<Vec<u8>>
        ensures { (seen : List Seen) → HasDrawn self.now.rows seen
            → IfSome self.now.rows (λ rows. IfSome result (λ drawing.
            drawing.items ≡ drawing_text style.now rows.subscribers seen)) }
    {
        let rows = self.rows.as_ref()?;
        drawing_of(alloc, style, rows).ok()
    }
}

impl Observer for DrawingRecorder {
    ghost use Rattle.cdc_drawing.specs.Drawings.{HasDrawn};

    ghost has_seen = { λ recorder seen. HasDrawn recorder.rows seen };

    fn begin(&mut self, alloc: Global, script: &Script, _steps: &StepFile) {
        self.rows = None;
        if self.is_asked {
            self.rows = Some(Rows::new(alloc, script.bindings.as_slice().len()));
        }
    }

    fn see(&mut self, step: &Step, did: &Did, moved: Option<Moved>, _ledger: &Ledger) {
        let rows = self.rows.take();
        self.rows = drawn(rows, step, did, moved);
    }

    fn refuse(&mut self, _step: Option<&Step>, _why: StepError, _world: &World<MemoryStore>) {}

    fn end(&mut self, _ledger: &Ledger) {}
}

/// Rows with one more. `None` if there are none, or if memory ran out.
fn drawn(rows: Option<Rows>, step: &Step, did: &Did, moved: Option<Moved>) -> Option<Rows>
    ensures { (seen : List Seen) (last : Seen) → last.step ≡ step.now → last.did ≡ did.now → last.moved ≡ moved
        → HasDrawn rows seen → HasDrawn result (seen ++ last ∷ []) }
{
    match rows {
        Some(rows) => with_row(rows, step, did, moved),
        None => None,
    }
}

/// The same of rows that there are.
fn with_row(rows: Rows, step: &Step, did: &Did, moved: Option<Moved>) -> Option<Rows>
    ensures { (seen : List Seen) (last : Seen) → last.step ≡ step.now → last.did ≡ did.now → last.moved ≡ moved
        → HasDrawn (Some rows) seen → HasDrawn result (seen ++ last ∷ []) }
{
    let mut rows = rows;
    match rows.push(step, did, moved) {
        Ok(()) => Some(rows),
        Err(AllocError) => None,
    }
}
