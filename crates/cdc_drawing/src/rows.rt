//! The rows of a drawing so far.

ghost use Rattle.std.specs.Prelude.{◌≡◌, ◌+◌, ◌*◌, ◌++◌, [], IfOk, List, OnOk, codes, decimal, length};
ghost use Rattle.cdc_commands.specs.Seen.{Seen};
ghost use Rattle.cdc_diagnostics.specs.Sentences.{sentence_text};
ghost use Rattle.cdc_diagnostics.specs.StepTexts.{step_line};
ghost use Rattle.cdc_drawing.specs.Drawings as spec;
ghost use Rattle.cdc_drawing.specs.Drawings.{drawing_text, row, rows_after};
ghost use Rattle.cdc_drawing.specs.Labels as labels;
ghost use Rattle.cdc_drawing.specs.Shapes as shapes;

use crate::labels::label;
use crate::shapes::shape;
use cdc_diagnostics::{Sentence, step_text};
use cdc_page::push_sentence;
use cdc_page_text::push;
use cdc_types::Step;
use cdc_world::{Did, Moved};
use std::alloc::{AllocError, Global};

/// The rows so far.
#[derive(Drop)]
pub(crate) struct Rows {
    /// How many subscribers there are.
    pub(crate) subscribers: usize,
    /// How many steps there are.
    pub(crate) count: usize,
    pub(crate) text: Vec<u8>,
}

impl Rows {
    /// No rows, for so many subscribers.
    pub(crate) fn new(alloc: Global, subscribers: usize) -> Rows
        ensures subscribers { result.subscribers ≡ subscribers }
        ensures count { result.count ≡ 0 }
        ensures text { result.text.items ≡ [] }
    {
        Rows {
            subscribers,
            count: 0,
            text: Vec::new(alloc),
        }
    }

    /// Adds the row of a step.
    pub(crate) fn push(
        &mut self,
        step: &Step,
        did: &Did,
        moved: Option<Moved>,
    ) -> Result<(), AllocError>
        ensures subscribers { self.new.subscribers ≡ self.old.subscribers }
        ensures count { OnOk result (self.new.count ≡ self.old.count + 1) }
        ensures text { (seen : Seen) → seen.step ≡ step.now → seen.did ≡ did.now → seen.moved ≡ moved
            → OnOk result (self.new.text.items ≡ self.old.text.items ++ row (self.old.count + 1) seen) }
    {
        let number = one_more(self.count)?;
        self.count = number;
        push_row(&mut self.text, number, step, did, moved)
    }
}

/// The number after this one. An error means that there are too many.
fn one_more(count: usize) -> Result<usize, AllocError>
    ensures { IfOk result (λ number. number ≡ count + 1) }
{
    count.checked_add(1).ok_or(AllocError)
}

/// Adds the row of the step of this number.
fn push_row(
    text: &mut Vec<u8>,
    number: usize,
    step: &Step,
    did: &Did,
    moved: Option<Moved>,
) -> Result<(), AllocError>
    ensures { (seen : Seen) → seen.step ≡ step.now → seen.did ≡ did.now → seen.moved ≡ moved
        → OnOk result (text.new.items ≡ text.old.items ++ row number seen) }
{
    push_place(text, number)?;
    push_shape(text, step, did)?;
    push(text, "<text x=\"5\">")?;
    push_step(text, step)?;
    push_label(text, moved)?;
    push(text, "</text></g>\n")
}

/// Adds where a row is.
fn push_place(text: &mut Vec<u8>, number: usize) -> Result<(), AllocError>
    ensures { OnOk result (text.new.items ≡ text.old.items ++ spec.place number) }
{
    push_sentence(text, place(number))
}

/// Where a row is.
fn place(number: usize) -> Sentence
    ensures { sentence_text result ≡ spec.place number }
{
    Sentence::One(
        "<g transform=\"translate(0 ",
        number as u128 * 22 + 50,
        ")\">",
    )
}

/// Adds the shape of a step.
fn push_shape(text: &mut Vec<u8>, step: &Step, did: &Did) -> Result<(), AllocError>
    ensures { OnOk result (text.new.items ≡ text.old.items ++ shapes.shape step.now did.now) }
{
    push_sentence(text, shape(step, did))
}

/// Adds a step as a step file has it.
fn push_step(text: &mut Vec<u8>, step: &Step) -> Result<(), AllocError>
    ensures { OnOk result (text.new.items ≡ text.old.items ++ step_line step.now) }
{
    push_sentence(text, step_text(step))
}

/// Adds what a step moved.
fn push_label(text: &mut Vec<u8>, moved: Option<Moved>) -> Result<(), AllocError>
    ensures { OnOk result (text.new.items ≡ text.old.items ++ labels.label moved) }
{
    push_sentence(text, label(moved))
}

/// The drawing of rows, with this style.
pub(crate) fn drawing_of(alloc: Global, style: &str, rows: &Rows) -> Result<Vec<u8>, AllocError>
    ensures { (seen : List Seen) → rows.now.text.items ≡ rows_after 0 seen → rows.now.count ≡ length seen
        → IfOk result (λ drawing. drawing.items ≡ drawing_text style.now rows.now.subscribers seen) }
{
    let mut text = Vec::new(alloc);
    push_sentence(&mut text, view(rows))?;
    push(&mut text, style)?;
    text.extend_from_slice(rows.text.as_slice())?;
    push(&mut text, "</svg>\n")?;
    Ok(text)
}

/// The first tag, with the width and the height of the drawing.
fn view(rows: &Rows) -> Sentence
    ensures { sentence_text result ≡ codes "<svg xmlns=\"http://www.w3.org/2000/svg\" viewBox=\"-235 0 "
        ++ decimal (rows.now.subscribers * 180 + 510) ++ codes " " ++ decimal (rows.now.count * 22 + 80) ++ codes "\">" }
{
    Sentence::Two(
        "<svg xmlns=\"http://www.w3.org/2000/svg\" viewBox=\"-235 0 ",
        rows.subscribers as u128 * 180 + 510,
        " ",
        rows.count as u128 * 22 + 80,
        "\">",
    )
}
