//! The steps of a simulation so far, as JSON.

ghost use Rattle.std.specs.Prelude.{◌≡◌, ◌++◌, [], IfOk, OnOk, length};
ghost use Rattle.cdc_commands.specs.Seen.{Seen};
ghost use Rattle.cdc_ledger.specs.Events.{events};
ghost use Rattle.cdc_page.specs.Moves.{moved_json};
ghost use Rattle.cdc_page.specs.Recordings.{entry_json, front_json, logged_json};

use crate::bindings::copied;
use crate::events::push_events;
use crate::moves::push_moved;
use crate::pieces::push_sentence;
use crate::steps::{did_name, step_sentence};
use cdc_ledger::Ledger;
use cdc_match::Binding;
use cdc_page_text::push;
use cdc_types::Step;
use cdc_world::{Did, Moved};
use std::alloc::{AllocError, Global};

/// The steps so far.
#[derive(Drop)]
pub(crate) struct Recording {
    /// The subscribers' bindings.
    pub(crate) bindings: Vec<Binding>,
    /// The objects of the steps, each after a comma.
    pub(crate) steps: Vec<u8>,
    /// How many events the ledger has logged.
    pub(crate) logged: usize,
}

impl Recording {
    /// A recording of no steps, for subscribers of these bindings.
    pub(crate) fn new(alloc: Global, bindings: &[Binding]) -> Result<Recording, AllocError>
        ensures bindings { IfOk result (λ recording. recording.bindings.items ≡ bindings.now) }
        ensures steps { IfOk result (λ recording. recording.steps.items ≡ []) }
        ensures logged { IfOk result (λ recording. recording.logged ≡ 0) }
    {
        Ok(Recording {
            bindings: copied(alloc, bindings)?,
            steps: Vec::new(alloc),
            logged: 0,
        })
    }

    /// Adds a step, its answer, what it moved, and what the ledger logged in it.
    pub(crate) fn push(
        &mut self,
        alloc: Global,
        step: &Step,
        did: &Did,
        moved: Option<Moved>,
        ledger: &Ledger,
    ) -> Result<(), AllocError>
        ensures bindings { self.new.bindings ≡ self.old.bindings }
        ensures steps { OnOk result (self.new.steps.items ≡ self.old.steps.items
            ++ entry_json self.old.bindings.items self.old.logged (record {
              step = step.now;
              did = did.now;
              moved = moved;
              history = ledger.now;
            })) }
        ensures logged { OnOk result (self.new.logged ≡ length (events ledger.now)) }
    {
        push_front(&mut self.steps, step, did, moved)?;
        push_logged(
            alloc,
            &mut self.steps,
            self.bindings.as_slice(),
            ledger,
            self.logged,
        )?;
        self.logged = ledger.log().len();
        Ok(())
    }
}

/// Adds a step, its answer and what it moved.
fn push_front(
    page: &mut Vec<u8>,
    step: &Step,
    did: &Did,
    moved: Option<Moved>,
) -> Result<(), AllocError>
    ensures { (seen : Seen) → seen.step ≡ step.now → seen.did ≡ did.now → seen.moved ≡ moved
        → OnOk result (page.new.items ≡ page.old.items ++ front_json seen) }
{
    push(page, ",\n{\"step\":")?;
    push_sentence(page, step_sentence(step))?;
    push(page, ",\"did\":\"")?;
    push(page, did_name(did))?;
    push(page, "\",\"moved\":")?;
    push_moved(page, moved)
}

/// Adds the events that a ledger has logged from this place on.
fn push_logged(
    alloc: Global,
    page: &mut Vec<u8>,
    bindings: &[Binding],
    ledger: &Ledger,
    from: usize,
) -> Result<(), AllocError>
    ensures { (seen : Seen) → seen.history ≡ ledger.now
        → OnOk result (page.new.items ≡ page.old.items ++ logged_json bindings.now from seen) }
{
    push(page, ",\"logged\":")?;
    push(page, "[null")?;
    push_events(alloc, page, bindings, ledger.log(), from)?;
    push(page, "]}")
}
