//! The page of a simulation.

ghost use Rattle.std.specs.Prelude.{◌≡◌, ◌++◌, IfOk, IfSome, List, OnOk, Some};
ghost use Rattle.cdc_commands.specs.Seen.{Seen};
ghost use Rattle.cdc_page.specs.Pages.{HasRecorded, array_json, labels_json, page_text};
ghost use Rattle.cdc_page.specs.Recordings.{steps_json};
ghost use Rattle.cdc_page_text.specs.Strings.{escaped};

use crate::recorder::PageRecorder;
use crate::recording::Recording;
use cdc_page_text::{push, push_escaped, push_number};
use std::alloc::{AllocError, Global};

/// The text of HTML around the data.
#[derive(Clone, Copy)]
pub struct Frame<'a> {
    pub before: &'a str,
    pub after: &'a str,
}

/// What a page has besides its steps.
#[derive(Clone, Copy)]
pub struct Labels<'a> {
    /// The name of the script.
    pub name: &'a str,
    /// Why the step after the last one was refused. Empty if none was.
    pub refusal: &'a str,
    /// The trace, a line for each step.
    pub trace: &'a str,
    /// The number of events that a session waits for at a time.
    pub window: usize,
}

/// The page of the steps that were recorded. `None` if nothing was recorded, or if memory ran out.
pub fn simulation_page(
    alloc: Global,
    frame: Frame<'_>,
    labels: Labels<'_>,
    recorder: &PageRecorder,
) -> Option<Vec<u8>>
    ensures { (seen : List Seen) → HasRecorded recorder.now.recording seen
        → IfSome recorder.now.recording (λ recording.
        IfSome result (λ page. page.items ≡ page_text frame.entry.before.now labels.entry.name.now
        labels.entry.refusal.now labels.entry.trace.now labels.entry.window
        (steps_json recording.bindings.items seen) frame.entry.after.now)) }
{
    match &recorder.recording {
        Some(recording) => recorded_page(alloc, frame, labels, recording),
        None => None,
    }
}

/// The page of the steps of this recording. `None` if memory ran out.
fn recorded_page(
    alloc: Global,
    frame: Frame<'_>,
    labels: Labels<'_>,
    recording: &Recording,
) -> Option<Vec<u8>>
    ensures { (seen : List Seen) → HasRecorded (Some recording.now) seen → IfSome result (λ page.
        page.items ≡ page_text frame.entry.before.now labels.entry.name.now labels.entry.refusal.now
        labels.entry.trace.now labels.entry.window (steps_json recording.now.bindings.items seen)
        frame.entry.after.now) }
{
    match page_of(alloc, frame, labels, recording.steps.as_slice()) {
        Ok(page) => Some(page),
        Err(AllocError) => None,
    }
}

/// The page of steps, each after a comma.
fn page_of(
    alloc: Global,
    frame: Frame<'_>,
    labels: Labels<'_>,
    steps: &[u8],
) -> Result<Vec<u8>, AllocError>
    ensures { IfOk result (λ page. page.items ≡ page_text frame.entry.before.now labels.entry.name.now
        labels.entry.refusal.now labels.entry.trace.now labels.entry.window steps.now frame.entry.after.now) }
{
    let mut page = Vec::new(alloc);
    push(&mut page, frame.before)?;
    push_labels(&mut page, labels)?;
    push_steps(&mut page, steps)?;
    push(&mut page, frame.after)?;
    Ok(page)
}

/// Adds what a page has besides its steps.
fn push_labels(page: &mut Vec<u8>, labels: Labels<'_>) -> Result<(), AllocError>
    ensures { OnOk result (page.new.items ≡ page.old.items ++ labels_json labels.entry.name.now
        labels.entry.refusal.now labels.entry.trace.now labels.entry.window) }
{
    push(page, "{\"format\":1,")?;
    push(page, "\"script\":\"")?;
    push_inside(page, labels.name)?;
    push(page, "\",\"refusal\":\"")?;
    push_inside(page, labels.refusal)?;
    push(page, "\",\"trace\":\"")?;
    push_inside(page, labels.trace)?;
    push(page, "\",\"window\":\"")?;
    push_number(page, labels.window as u128)
}

/// Adds the inside of a string.
fn push_inside(page: &mut Vec<u8>, inside: &str) -> Result<(), AllocError>
    ensures { OnOk result (page.new.items ≡ page.old.items ++ escaped inside.now) }
{
    push_escaped(page, inside.as_bytes())
}

/// Adds the array of the steps, each after a comma.
fn push_steps(page: &mut Vec<u8>, steps: &[u8]) -> Result<(), AllocError>
    ensures { OnOk result (page.new.items ≡ page.old.items ++ array_json steps.now) }
{
    push(page, "\",\"steps\":")?;
    push(page, "[null")?;
    push_bytes(page, steps)?;
    push(page, "]}")
}

/// Adds bytes as they are.
fn push_bytes(page: &mut Vec<u8>, bytes: &[u8]) -> Result<(), AllocError>
    ensures { OnOk result (page.new.items ≡ page.old.items ++ bytes.now) }
{
    page.extend_from_slice(bytes)
}
