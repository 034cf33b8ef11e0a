//! An observer of a simulation: why items weren't accepted, what each step did, and why one was refused, as texts.

ghost use Rattle.std.specs.Prelude.{◌≡◌, ◌^◌, ◌<◌, ℕ, List, [], ◌∷◌, ◌++◌, IfSome, length, string_bytes};
ghost use Rattle.cdc_commands.specs.Seen.{Seen};
ghost use Rattle.cdc_diagnostics.specs.Diagrams.{diagram_text};
ghost use Rattle.cdc_diagnostics.specs.Recordings.{HasSeen, if_asked};
ghost use Rattle.cdc_diagnostics.specs.Traces.{trace_text};

use crate::items::ItemLines;
use crate::reasons::{reason, start_reason};
use crate::recordings::{Asked, Recorded, Recording};
use crate::results::batch_sentence;
use crate::sentences::Sentence;
use crate::steps::step_text;
use crate::texts::Text;
use cdc_commands::Observer;
use cdc_ledger::{BatchError, Ledger};
use cdc_progress::MemoryStore;
use cdc_script::{Script, ScriptLines, StepFile};
use cdc_types::{Batch, Step};
use cdc_world::{Did, Moved, StepError, World};
use std::alloc::{AllocError, Global};

/// An observer of a simulation. It writes what is asked for while the steps run.
#[derive(Drop)]
pub struct Observation<'a> {
    /// Names the script in each line.
    name: &'a str,
    /// What each step did.
    recording: Recording,
    /// Why items weren't accepted. None before the simulation has begun, or if it isn't asked for.
    items: Option<ItemLines<'a>>,
    /// The line of each step in the step file. None if memory ran out for them.
    lines: Option<Vec<u32>>,
    /// How many steps succeeded.
    steps: usize,
    /// The session and the timestamp that are saved. None if no progress is.
    saved: Option<(u64, u64)>,
    /// The timestamp that the first session started after; 0 if none was given.
    start: u64,
    is_refused: bool,
    /// Why a step was refused; empty if none was.
    why: Text,
}

/// What an observer has written. Lines end with a line feed.
#[derive(Drop)]
pub struct Observed {
    /// A line for each item that wasn't accepted, with the reason; and one for the events that are left out up to a
    /// start.
    pub items: String,
    /// A line for each step, with what it did.
    pub trace: String,
    /// The steps as a sequence diagram for Mermaid.
    pub diagram: String,
    pub refusal: Option<RefusedStep>,
}

/// A step that was refused.
#[derive(Drop)]
pub struct RefusedStep {
    /// Its line in the step file, from 1.
    pub line: u32,
    /// The step and the reason, without a line feed.
    pub why: String,
}

impl<'a> Observation<'a> {
    /// An observer that has seen nothing. `name` names the script in its texts.
    pub fn new(alloc: Global, name: &'a str, asked: Asked) -> Observation<'a>
        ensures { result.recording.asked ≡ asked }
    {
        Observation {
            name,
            recording: Recording::new(alloc, asked),
            items: None,
            lines: None,
            steps: 0,
            saved: None,
            start: 0,
            is_refused: false,
            why: Text::new(alloc),
        }
    }

    /// What it has written of a simulation. None if memory ran out for a part of it.
    pub fn finish(self, alloc: Global) -> Option<Observed>
        ensures trace { (seen : List Seen) → HasSeen self.entry.recording seen
            → length seen < 2 ^ 64 → IfSome result (λ observed. string_bytes observed.trace
            ≡ if_asked self.entry.recording.asked.trace (trace_text seen)) }
        ensures diagram { (seen : List Seen) → HasSeen self.entry.recording seen
            → length seen < 2 ^ 64 → IfSome result (λ observed. string_bytes observed.diagram
            ≡ if_asked self.entry.recording.asked.diagram
            (diagram_text self.entry.recording.subscribers seen)) }
    {
        let Observation {
            recording,
            items,
            lines,
            steps,
            is_refused,
            why,
            ..
        } = self;
        let items = match items {
            Some(lines) => lines.finish().ok()?,
            None => String::new(alloc),
        };
        let lines = lines?;
        let why = why.finish().ok()?;
        let Some(Recorded { trace, diagram }) = recording.finish() else {
            return None;
        };
        Some(Observed {
            items,
            trace,
            diagram,
            refusal: is_refused.then_some(RefusedStep {
                line: lines.get(steps).copied().unwrap_or(0),
                why,
            }),
        })
    }

    /// Writes why items of a batch weren't accepted, if it is asked for.
    fn push_items(&mut self, step: &Step, did: &Did, ledger: &Ledger)
        ensures { self.new.recording ≡ self.old.recording }
    {
        if let (Step::Submit(batch), Did::Submitted(results), Some(items)) = (
            step,
            did,
            &mut self.items,
        ) {
            items.push_results(batch, results, ledger);
        }
    }

    /// Keeps what is saved, and after which timestamp the first session started.
    fn follow(&mut self, step: &Step, moved: Moved)
        ensures { self.new.recording ≡ self.old.recording }
    {
        match moved {
            Moved::SessionStarted { session, after } => {
                self.saved = Some((session, after));
                if let Step::StartAt(_) = step {
                    self.start = after;
                }
            }
            Moved::ProgressSaved { session, timestamp } => self.saved = Some((session, timestamp)),
            _ => {}
        }
    }

    /// Writes why a step is refused. A step that memory ran out for makes the text fail.
    fn push_why(&mut self, step: &Step, refusal: StepError, world: &World<MemoryStore>)
        ensures { self.new.recording ≡ self.old.recording }
    {
        match (refusal, step) {
            (StepError::OutOfMemory, _) => self.why.abort(),
            (StepError::Refused(answer), Step::Submit(batch)) => {
                push_refused_batch(batch, answer, &mut self.why);
            }
            _ => {
                self.why.push_sentence(step_text(step));
                self.why.push(": ");
                self.push_refusal(step, refusal, world);
            }
        }
    }

    /// Writes why a step other than a batch is refused.
    fn push_refusal(&mut self, step: &Step, refusal: StepError, world: &World<MemoryStore>)
        ensures { self.new.recording ≡ self.old.recording }
    {
        match refusal {
            StepError::NotEnabled => {
                self.why.push("not enabled: ");
                self.why.push_sentence(reason(step, world));
            }
            StepError::SessionsExhausted => {
                self.why
                    .push("sessions_exhausted: no number is left for a session");
            }
            StepError::StartNotAllowed => {
                self.why.push("start_not_allowed: ");
                if let Some((session, timestamp)) = self.saved {
                    self.why.push_sentence(start_reason(session, timestamp));
                }
            }
            _ => self.why.push(refusal.name()),
        }
    }
}

impl Observer for Observation<'_> {
    ghost has_seen = { λ observation seen. HasSeen observation.recording seen };

    fn begin(&mut self, alloc: Global, script: &Script, steps: &StepFile) {
        self.lines = steps.lines.clone().ok();
        if self.recording.asked.items {
            match copy_lines(alloc, &script.lines) {
                Ok(lines) => self.items = Some(ItemLines::new(alloc, self.name, lines)),
                Err(_) => self.lines = None,
            }
        }
        self.recording
            .begin(alloc, script.bindings.as_slice().len());
    }

    fn see(&mut self, step: &Step, did: &Did, moved: Option<Moved>, ledger: &Ledger) {
        self.steps = self.steps.saturating_add(1);
        if let Some(moved) = moved {
            self.follow(step, moved);
        }
        self.push_items(step, did, ledger);
        self.recording.see(step, did, moved, ledger);
    }

    fn refuse(&mut self, step: Option<&Step>, why: StepError, world: &World<MemoryStore>) {
        self.is_refused = true;
        match step {
            Some(step) => self.push_why(step, why, world),
            // (all batches of the script were taken before)
            None => self.why.push_sentence(Sentence::One(
                "batch: not enabled: no batch is left of the script's ",
                self.recording.batches as u128,
                "",
            )),
        }
    }

    fn end(&mut self, ledger: &Ledger) {
        let (Some(items), 1..) = (&mut self.items, self.start) else {
            return;
        };
        items.push_sentence(Sentence::Three(
            "events up to the start, ",
            self.start.into(),
            ", are left out: ",
            ledger.log().first_after(self.start) as u128,
            " of ",
            ledger.log().len() as u128,
            "",
        ));
    }
}

fn copy_lines(alloc: Global, lines: &ScriptLines) -> Result<ScriptLines, AllocError> {
    Ok(ScriptLines {
        batches: lines.batches.try_copy(alloc)?,
        requests: lines.requests.try_copy(alloc)?,
    })
}

/// Writes why the ledger refuses a batch.
fn push_refused_batch(batch: &Batch, answer: BatchError, why: &mut Text) {
    why.push_sentence(Sentence::One("batch: refused: ", answer.number().into(), " "));
    why.push(answer.name());
    why.push(": ");
    why.push_sentence(batch_sentence(answer, batch));
}
