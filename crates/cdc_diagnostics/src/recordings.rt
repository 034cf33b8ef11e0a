//! The trace and the diagram of a simulation, written while its steps are done.

ghost use Rattle.std.specs.Prelude.{◌≡◌, ◌+◌, ◌<◌, ◌^◌, ℕ, List, [], ◌∷◌, ◌++◌, IfSome, length, string_bytes};
ghost use Rattle.cdc_commands.specs.Seen.{Seen};
ghost use Rattle.cdc_diagnostics.specs.Diagrams.{diagram_line, diagram_text};
ghost use Rattle.cdc_diagnostics.specs.Recordings.{HasSeen, if_asked};
ghost use Rattle.cdc_diagnostics.specs.Texts.{Holds};
ghost use Rattle.cdc_diagnostics.specs.Traces as spec;
ghost use Rattle.cdc_diagnostics.specs.Traces.{seen_of, trace_line, trace_text};

use crate::diagram::Diagram;
use crate::texts::Text;
use crate::traces::Done;
use cdc_ledger::Ledger;
use cdc_types::Step;
use cdc_world::{Did, Moved};
use std::alloc::Global;

/// What an observer writes of a simulation, besides why a step was refused.
#[derive(Clone, Copy, Debug, PartialEq, Eq)]
pub struct Asked {
    /// Whether to write why items weren't accepted.
    pub items: bool,
    /// Whether to write what each step did.
    pub trace: bool,
    /// Whether to write a diagram of the steps.
    pub diagram: bool,
}

/// The trace and the diagram of the steps so far. A text that isn't asked for is empty.
#[derive(Drop)]
pub(crate) struct Recording {
    pub(crate) asked: Asked,
    /// A line for each step.
    trace: Text,
    diagram: Diagram,
    /// How many subscribers the diagram has.
    subscribers: usize,
    /// How many batches the ledger took.
    pub(crate) batches: usize,
}

/// The texts of a simulation. Lines end with a line feed.
#[derive(Drop)]
pub(crate) struct Recorded {
    pub trace: String,
    pub diagram: String,
}

impl Recording {
    /// A recording of no steps.
    pub(crate) fn new(alloc: Global, asked: Asked) -> Recording
        ensures { result.asked ≡ asked }
    {
        Recording {
            asked,
            trace: Text::new(alloc),
            diagram: Diagram::new(alloc),
            subscribers: 0,
            batches: 0,
        }
    }

    /// Begins with a simulation that has so many subscribers.
    pub(crate) fn begin(&mut self, alloc: Global, subscribers: usize)
        ensures seen { HasSeen self.new [] }
        ensures asked { self.new.asked ≡ self.old.asked }
        ensures subscribers { self.new.subscribers ≡ subscribers }
    {
        self.subscribers = subscribers;
        self.batches = 0;
        self.trace = Text::new(alloc);
        self.diagram = head(alloc, self.asked.diagram, subscribers);
    }

    /// Writes what is asked for of a step.
    pub(crate) fn see(&mut self, step: &Step, did: &Did, moved: Option<Moved>, ledger: &Ledger)
        ensures seen { (seen : List Seen) → HasSeen self.old seen → HasSeen self.new
            (seen ++ record {
              step = step.now;
              did = did.now;
              moved = moved;
              history = ledger.now;
            } ∷ []) }
        ensures asked { self.new.asked ≡ self.old.asked }
        ensures subscribers { self.new.subscribers ≡ self.old.subscribers }
    {
        let batches = taken_with(self.batches, step);
        let done = Done {
            step,
            did,
            moved,
            ledger,
            batches,
        };
        self.batches = batches;
        push_trace(self.asked.trace, done, &mut self.trace);
        push_diagram(self.asked.diagram, done, &mut self.diagram);
    }

    /// The texts. None if memory ran out for one of them.
    pub(crate) fn finish(self) -> Option<Recorded>
        ensures trace { (seen : List Seen) → HasSeen self seen → length seen < 2 ^ 64
            → IfSome result (λ recorded. string_bytes recorded.trace
            ≡ if_asked self.asked.trace (trace_text seen)) }
        ensures diagram { (seen : List Seen) → HasSeen self seen → length seen < 2 ^ 64
            → IfSome result (λ recorded. string_bytes recorded.diagram
            ≡ if_asked self.asked.diagram (diagram_text self.subscribers seen)) }
    {
        let Recording { trace, diagram, .. } = self;
        let Ok(trace) = trace.finish() else {
            return None;
        };
        let Ok(diagram) = diagram.finish() else {
            return None;
        };
        Some(Recorded { trace, diagram })
    }
}

/// A diagram's head, if it is asked for.
fn head(alloc: Global, is_asked: bool, subscribers: usize) -> Diagram
    ensures { Holds result.text (if_asked is_asked (diagram_text subscribers [])) }
{
    let mut diagram = Diagram::new(alloc);
    if is_asked {
        diagram.begin(subscribers);
    }
    diagram
}

/// Adds the line of a step to a trace, if it is asked for.
fn push_trace(is_asked: bool, done: Done<'_>, trace: &mut Text)
    ensures { (bytes : List ℕ) → Holds trace.old bytes → Holds trace.new
        (bytes ++ if_asked is_asked (trace_line done.entry.batches (seen_of done.entry))) }
{
    if is_asked {
        done.push_to(trace);
    }
}

/// Adds the line of a step to a diagram, if it is asked for.
fn push_diagram(is_asked: bool, done: Done<'_>, diagram: &mut Diagram)
    ensures { (bytes : List ℕ) → Holds diagram.old.text bytes → Holds diagram.new.text
        (bytes ++ if_asked is_asked (diagram_line done.entry.batches (seen_of done.entry))) }
{
    if is_asked {
        diagram.push(done);
    }
}

/// How many batches the ledger has taken with this step, if it took so many before.
fn taken_with(batches: usize, step: &Step) -> usize
    ensures { batches + 1 < 2 ^ 64 → result ≡ spec.taken_with batches step.now }
{
    match step {
        Step::Submit(_) => batches.saturating_add(1),
        _ => batches,
    }
}
